// Printed replays, from the words and bytes in to the line of what is found.
use super::*;
use sh_port::{ListSink, ListSource};
use sh_sheet::Status;
use std::alloc::{AllocError, Global};
use std::test::Fail;

const OK: JudgeStatus = JudgeStatus::Served(Status::Ok);

// Texts and what is found of them, one a line: the finding, what is shown, and the text with `;` for its line feeds.
const FOUND: &[u8] =
    b"lawful,4,2|four calls|1,0,put,5,50,none,,0;2,0,get,5,,some,50,1;3,0,del,5,,some,50,1;4,0,get,5,,none,,2;end,4,0,0;
lawful,0,0|no call|end,0,0,0;
lawful,2,2|the map|1,3,put,5,50,none,,1;2,0,put,4,40,none,,0;map,4,40;map,5,50;end,2,2,90;
lawful,4,2|a range with rows and one in part|1,0,put,5,50,none,,0;2,0,put,7,70,none,,1;3,1,range,5,9,rows,9,0:2;row,3,5,50;row,3,7,70;4,1,range,5,9,part,6,2:2;row,4,5,50;end,4,2,120;
lawful,5,1|full and worn, each as early as its seat allows|1,0,put,5,50,none,,0;2,0,put,6,60,full,,;3,1,del,5,,worn,3,;4,0,del,6,,none,,1;5,1,get,5,,none,,0;end,5,1,50;
lawful,2,2|the least and the greatest key|1,63,put,1,18446744073709551615,none,,0;2,63,put,18446744073709551614,1,none,,1;end,2,2,18446744073709551616;
misfit,reply,2|a reply that isn't the map's|1,0,put,5,50,none,,0;2,0,get,5,,some,51,1;3,0,del,5,,some,50,1;4,0,get,5,,none,,2;end,4,0,0;
misfit,entry,1|an entry that doesn't fit|1,0,put,5,50,none,,0;2,0,put,5,51,none,,1;end,2,1,51;
misfit,row,2|rows that aren't the map's|1,0,put,5,50,none,,0;2,0,range,5,6,rows,6,1:1;end,2,1,50;
misfit,row,3|rows that don't rise|1,0,put,5,50,none,,0;2,0,put,7,70,none,,1;3,1,range,5,9,rows,9,2:2;row,3,7,70;row,3,5,50;end,3,2,120;
misfit,reply,1|a range that ends before it begins|1,0,range,5,9,part,4,0:0;end,1,0,0;
misfit,order,2|a call before an earlier one of its seat|1,0,put,5,50,none,,0;2,0,get,5,,none,,0;end,2,1,50;
misfit,reply,1|the first of two misfits|1,0,get,5,,some,1,0;2,0,get,5,,some,2,0;end,2,0,0;
place,0|no place|1,0,put,5,50,none,,1;end,1,1,50;
place,1|a place twice|1,0,put,5,50,none,,0;2,1,put,6,60,none,,1;3,2,put,7,70,none,,1;end,3,3,180;
place,0|the greatest word as a place|1,0,put,5,50,none,,18446744073709551615;2,0,put,5,50,full,,;end,2,1,50;
map,2|a value of the map|1,0,put,5,50,none,,0;map,5,51;end,1,1,50;
map,4|a key of the map|1,0,put,5,50,none,,0;2,0,put,6,60,none,,1;map,5,50;map,7,60;end,2,2,110;
map,3|a line too many of the map|1,0,put,5,50,none,,0;map,5,50;map,6,60;end,1,1,50;
map,4|a line that is wanting of the map|1,0,put,5,50,none,,0;2,0,put,6,60,none,,1;map,5,50;end,2,2,110;
map,4|a line of the map behind rows|1,0,put,5,50,none,,0;2,0,range,5,6,rows,6,1:1;row,2,5,50;map,6,50;end,2,1,50;
end|the calls of the end|1,0,put,5,50,none,,0;end,2,1,50;
end|its keys|1,0,put,5,50,none,,0;end,1,2,50;
end|its sum|1,0,put,5,50,none,,0;end,1,1,51;
line,1|nothing|
line,2|no end|1,0,put,5,50,none,,0;
line,2|no line feed at the end|1,0,put,5,50,none,,0;end,1,1,50
line,2|a line behind the end|end,0,0,0;end,0,0,0;
line,2|an empty line behind the end|end,0,0,0;;
line,1|carriage returns|1,0,put,5,50,none,,0\r;end,1,1,50\r;
line,1|an event|event,0,load,1,1;end,0,0,0;
line,1|made calls|made,1,7;counts,0,1,0,0,0,0;end,1,1,1;
line,1|an unfinished run|unfinished,0,0;
line,1|a call that hasn't ended|1,0,get,5,,pending,,;end,1,0,0;
line,1|no column of points|1,0,get,5,,none,;end,1,0,0;
line,1|a field too many|1,0,get,5,,none,,0,;end,1,0,0;
line,2|a number that doesn't rise by one|1,0,get,5,,none,,0;3,0,get,5,,none,,0;end,2,0,0;
line,1|a first number of 0|0,0,get,5,,none,,0;end,1,0,0;
line,1|a leading zero|1,0,get,05,,none,,0;end,1,0,0;
line,1|a sign|1,0,get,+5,,none,,0;end,1,0,0;
line,1|a seat above 63|1,64,get,5,,none,,0;end,1,0,0;
line,1|an operation that isn't one|1,0,pop,5,,none,,0;end,1,0,0;
line,1|the key 0|1,0,get,0,,none,,0;end,1,0,0;
line,1|the last word as a key|1,0,get,18446744073709551615,,none,,0;end,1,0,0;
line,1|a number past the words|1,0,get,5,,none,,18446744073709551616;end,1,0,0;
line,1|a get with a b|1,0,get,5,5,none,,0;end,1,0,0;
line,1|a range with its bounds turned|1,0,range,9,5,rows,5,0:0;end,1,0,0;
line,1|a put of two words|1,0,put,5,50:7,none,,0;end,1,1,57;
line,1|a get of rows|1,0,get,5,,rows,9,0:0;end,1,0,0;
line,1|a full delete|1,0,del,5,,full,,;end,1,0,0;
line,1|a worn get|1,0,get,5,,worn,3,;end,1,0,0;
line,1|a found value of two words|1,0,get,5,,some,5:7,0;end,1,0,0;
line,1|none with a value|1,0,get,5,,none,5,0;end,1,0,0;
line,1|full with a value|1,0,put,5,50,full,1,;end,1,0,0;
line,1|full with a point|1,0,put,5,50,full,,0;end,1,0,0;
line,1|rows up to less than high|1,0,range,5,9,rows,8,0:0;end,1,0,0;
line,1|part up to high|1,0,range,5,9,part,9,0:0;end,1,0,0;
line,1|a range with one point|1,0,range,5,9,rows,9,0;end,1,0,0;
line,1|a get with two points|1,0,get,5,,none,,0:0;end,1,0,0;
line,2|a row of a get|1,0,get,5,,none,,0;row,1,5,50;end,1,0,0;
line,3|a row of another call|1,0,range,5,9,rows,9,0:0;2,0,range,5,9,rows,9,0:0;row,1,5,50;end,2,0,0;
line,1|a row without a call|row,0,5,50;end,0,0,0;
line,2|a row of two words|1,0,range,5,9,rows,9,0:0;row,1,5,5:7;end,1,0,0;
line,3|a row behind the map|1,0,range,5,9,rows,9,0:0;map,5,50;row,1,5,50;end,1,0,0;
line,2|a call behind the map|map,5,50;1,0,get,5,,none,,0;end,1,0,0;
line,1|a line of the map of two words|map,5,50:7;end,0,0,0;
line,1|a sum past 128 bits|end,0,0,340282366920938463463374607431768211456;
line,1|an end of two numbers|end,0,0;";

// How a judge with these words ended, and what it wrote. The calls with these numbers fail; a number of 0 fails none.
fn judge_with_faults(
    alloc: Global,
    words: &[&str],
    text: &[u8],
    failing_read: u64,
    failing_write: u64,
) -> Result<(JudgeStatus, Vec<u8>), AllocError> {
    let mut source = ListSource::new(text.to_vec(alloc)?, 16, vec![in alloc; failing_read]?);
    let mut sink = ListSink::new(alloc, 64, 4, vec![in alloc; failing_write]?)?;
    let status = judge_top(alloc, words, &mut source, &mut sink);
    let written = sink.bytes().to_vec(alloc)?;
    Ok((status, written))
}

// Whether a judge with these words ends so and writes this.
fn is_judged(
    alloc: Global,
    words: &[&str],
    text: &[u8],
    status: JudgeStatus,
    line: &[u8],
) -> Result<bool, AllocError> {
    let ended = judge_with_faults(alloc, words, text, 0, 0)?;
    Ok(ended.0 == status && ended.1.as_slice() == line)
}

// The text of a case, and the line of what is to be found of it.
fn case_of(alloc: Global, case: &[u8]) -> Result<(Vec<u8>, Vec<u8>), AllocError> {
    let mut line = Vec::new(alloc);
    let mut text = Vec::new(alloc);
    let mut bars = 0u8;
    for byte in case {
        if *byte == b'|' {
            bars = bars.saturating_add(1);
        } else if bars == 0 {
            line.push(*byte)?;
        } else if bars == 2 {
            text.push(if *byte == b';' { b'\n' } else { *byte })?;
        }
    }
    line.push(b'\n')?;
    Ok((text, line))
}

#[test]
fn each_finding_is_told_where_it_stands(rt: HostRuntime) -> Result<(), Fail> {
    let alloc = rt.alloc();
    let mut cases = 0u32;
    for case in FOUND.split(|byte| *byte == b'\n') {
        let (text, line) = case_of(alloc, case)?;
        let lawful = line.as_slice().starts_with(b"lawful");
        let status = if lawful { OK } else { JudgeStatus::NotLawful };
        assert!(rt; is_judged(alloc, &[], &text, status, &line)?, "{cases}");
        cases = cases.saturating_add(1);
    }
    assert_eq!(rt; cases, 68);
    Ok(())
}

#[test]
fn values_have_as_many_words_as_is_said(rt: HostRuntime) -> Result<(), Fail> {
    let alloc = rt.alloc();
    let two =
        b"1,0,put,5,50:7,none,,0\n2,0,get,5,,some,50:7,1\nmap,5,50:7\nend,2,1,57\n".as_slice();
    for words in [
        ["--value-words", "2"].as_slice(),
        ["--value-words=02"].as_slice(),
    ] {
        assert!(rt;
            is_judged(alloc, words, two, OK, b"lawful,2,1\n")?,
            "{words:?}"
        );
    }
    Ok(())
}

// The first of the texts.
fn four_calls(alloc: Global) -> Result<Vec<u8>, AllocError> {
    let mut first = Vec::new(alloc);
    for byte in FOUND {
        if *byte == b'\n' {
            break;
        }
        first.push(*byte)?;
    }
    Ok(case_of(alloc, &first)?.0)
}

// The seats may be others, and the last get may ask for another key that isn't there.
#[test]
fn a_changed_byte_is_found_but_where_the_text_has_another_lawful_reading(
    rt: HostRuntime,
) -> Result<(), Fail> {
    let alloc = rt.alloc();
    let lines = four_calls(alloc)?;
    let mut lawful = Vec::new(alloc);
    for place in 0..lines.len() {
        let mut text = lines.to_vec(alloc)?;
        text[place] = b'9';
        let ended = judge_with_faults(alloc, &[], &text, 0, 0)?;
        if ended.0 == OK {
            lawful.push(place)?;
        }
    }
    assert_eq!(rt; lawful.as_slice(), [2, 23, 44, 65, 71].as_slice());
    Ok(())
}

#[test]
fn laws_are_called() {
    judge_laws();
}

#[test]
fn words_and_faults_are_told(rt: HostRuntime) -> Result<(), Fail> {
    let alloc = rt.alloc();
    let lines = four_calls(alloc)?;
    for words in [
        ["--value-words"].as_slice(),
        ["--value-words", "0"].as_slice(),
        ["--value-words=9"].as_slice(),
        ["--value-words", "1", "--value-words", "1"].as_slice(),
        ["--map"].as_slice(),
        ["1"].as_slice(),
        ["--"].as_slice(),
    ] {
        let usage = JudgeStatus::Served(Status::Usage);
        assert!(rt; is_judged(alloc, words, &lines, usage, b"")?, "{words:?}");
    }
    let read = judge_with_faults(alloc, &[], &lines, 2, 0)?;
    assert!(rt; read.0 == JudgeStatus::Served(Status::ReadFault) && read.1.is_empty());
    let write = judge_with_faults(alloc, &[], &lines, 0, 2)?;
    assert!(rt;
        write.0 == JudgeStatus::Served(Status::WriteFault)
            && write.1.as_slice() == b"lawf".as_slice()
    );
    let long = vec![in alloc; b'1'; 16_777_217]?;
    assert!(rt; is_judged(alloc, &[], &long, JudgeStatus::Served(Status::TooLong), b"")?);
    assert_eq!(rt; JudgeStatus::NotLawful.code(), 14);
    assert_eq!(rt; JudgeStatus::Served(Status::TooLong).code(), 5);
    Ok(())
}

// Whether an end has this text and this code, also as it is displayed.
fn is_told(alloc: Global, end: JudgeStatus, code: u8, text: &str) -> Result<bool, AllocError> {
    let shown = format!(in alloc; "{end}")?;
    Ok(end.code() == code && end.text().as_str() == text && shown.as_str() == text)
}

#[test]
fn ends_are_told(rt: HostRuntime) -> Result<(), Fail> {
    for (end, code, text) in [
        (JudgeStatus::Served(Status::Ok), 0, ""),
        (JudgeStatus::Served(Status::Usage), 2, "usage"),
        (JudgeStatus::Served(Status::NoMemory), 8, "no memory"),
        (JudgeStatus::NotLawful, 14, ""),
    ] {
        assert!(rt; is_told(rt.alloc(), end, code, text)?, "{text}");
    }
    Ok(())
}
