// Sheets that are read, and sheets that are refused.
use super::*;
use sh_base::{Config, ConfigParts};
use sh_map::Call;
use std::alloc::{AllocError, Global};
use std::fmt::Write;
use std::test::Fail;

// Sheets that are refused, one a line: why, and the sheet with `;` for its line feeds.
const REFUSED: &[u8] = b"row 1 FieldCount|put,0,5;
row 1 FieldCount|get,0,5,,;
row 2 FieldCount|get,0,5,;put,0
row 1 BadOp|push,0,5,5;
row 1 BadOp|Put,0,5,5;
row 2 BadOp|op,seat,a,b;op,seat,a,b;
row 1 BadOp|op,seat,a,c;
row 1 BadOp|put\xff,0,5,5;
row 1 BadNumber|put,0,5,-1;
row 1 BadNumber|put,0,5,;
row 1 BadNumber|put,0,5,5:6;
row 1 BadNumber|put,0, 5,5;
row 1 BadNumber|put,0,5,\xff;
row 1 BadNumber|get,0,5,5;
row 1 BadNumber|get,0,000000000000000000005,;
row 1 BadNumber|get,0,18446744073709551616,;
row 1 BadNumber|get,99999999999999999999,5,;
row 1 BadNumber|range,0,8,;
row 1 BadNumber|mark,0,1,1;
row 1 BadSeat|put,8,5,5;
row 1 BadSeat|put,4294967296,0,5;
row 1 BadKey|get,0,0,;
row 1 BadKey|get,0,18446744073709551615,;
row 1 BadKey|range,0,0,8;
row 1 BadBounds|range,0,8,7;
row 1 BadMark|after,0,1,;
row 1 BadMark|after,0,1,;mark,0,1,;
row 2 BadMark|mark,0,1,;mark,1,1,;
row 3 BadKey|op,seat,a,b;;get,0,5,\r;\r;get,0,0,";

// Sheets that are read: how many items they have, whether behind a heading, and the sheet.
const READ: &[u8] = b"0 false|
0 false|;\r;
0 true|op,seat,a,b
2 true|op,seat,a,b;put,0,5,50:051;del,007,7,;
1 true|\xef\xbb\xbfop,seat,a,b\r;get,0,18446744073709551614,\r;
2 false|\"get\",\"0\",\"5\",\"\";;;get,0,5,
1 false|put,0,5,00000000000000000050:18446744073709551615
2 false|range,0,8,8;range,0,1,18446744073709551615;
5 false|mark,0,1,;after,1,1,;mark,0,2,;after,0,1,;after,0,2,;";

// Sheets of a feed.
const FED: &[u8] = b"2 false|put,,5,50;get,,5,
3 true|op,seat,a,b;del,,5,;range,,8,8;range,,1,18446744073709551615;
row 1 FieldCount|mark,0,1
row 1 BadOp|mark,0,x,1;
row 2 BadOp|get,,5,;after,,1,
row 1 BadOp|turn,,1,
row 1 BadNumber|put,0,5,50
row 1 BadNumber|get, ,0,
row 1 BadKey|put,,0,50
row 1 BadBounds|range,,8,7";

fn setting(rows: u32, value_words: u32) -> ConfigParts {
    ConfigParts {
        servers: 2,
        chunks: 64,
        chunk_nodes: 32,
        locks: 64,
        leaf: 16,
        computes: 2,
        seats: 4,
        bound: 4,
        bits: 32,
        rows,
        cached: 16,
        value_words,
    }
}

// What is said of a sheet: why it is refused, or how many items it has and whether they stand behind a heading.
fn said_of(
    alloc: Global,
    parts: ConfigParts,
    mode: Mode,
    bytes: &[u8],
) -> Result<String, AllocError> {
    let Ok(cfg) = Config::new(parts) else {
        return Ok(String::new(alloc));
    };
    match read_sheet(alloc, bytes, mode, &cfg) {
        Ok(sheet) => {
            let items = sheet.as_slice().len();
            let headed = sheet.has_heading();
            format!(in alloc; "{items} {headed}")
        }
        Err(SheetFault::Row { row, cause }) => format!(in alloc; "row {row} {cause}"),
        Err(SheetFault::TooMany) => format!(in alloc; "too many"),
        Err(SheetFault::NoMemory) => Err(AllocError),
    }
}

// Whether that is said of a case's sheet which stands before it.
fn is_said(alloc: Global, parts: ConfigParts, mode: Mode, case: &[u8]) -> Result<bool, AllocError> {
    let mut said = Vec::new(alloc);
    let mut sheet = Vec::new(alloc);
    let mut is_behind = false;
    for byte in case {
        if *byte == b'|' {
            is_behind = true;
        } else if is_behind {
            sheet.push(if *byte == b';' { b'\n' } else { *byte })?;
        } else {
            said.push(*byte)?;
        }
    }
    Ok(said_of(alloc, parts, mode, &sheet)?.as_bytes() == said.as_slice())
}

#[test]
fn sheets_are_refused_and_read(rt: HostRuntime) -> Result<(), Fail> {
    let alloc = rt.alloc();
    let mut cases = 0u32;
    for case in REFUSED.split(|byte| *byte == b'\n') {
        assert!(rt;
            is_said(alloc, setting(256, 1), Mode::Replay, case)?,
            "{cases}"
        );
        cases = cases.saturating_add(1);
    }
    for case in READ.split(|byte| *byte == b'\n') {
        assert!(rt;
            is_said(alloc, setting(256, 2), Mode::Run, case)?,
            "{cases}"
        );
        cases = cases.saturating_add(1);
    }
    assert_eq!(rt; cases, 38);
    let turn = b"row 1 TurnNotHere|turn,9,x,;";
    assert!(rt; is_said(alloc, setting(256, 1), Mode::Run, turn)?);
    for case in FED.split(|byte| *byte == b'\n') {
        assert!(rt;
            is_said(alloc, setting(256, 1), Mode::Feed, case)?,
            "{cases}"
        );
        cases = cases.saturating_add(1);
    }
    assert_eq!(rt; cases, 48);
    Ok(())
}

#[test]
fn the_last_of_64_seats_is_one(rt: HostRuntime) -> Result<(), Fail> {
    let mut parts = setting(256, 1);
    parts.computes = 8;
    parts.seats = 8;
    assert!(rt; is_said(rt.alloc(), parts, Mode::Run, b"1 false|get,63,5,")?);
    assert!(rt; is_said(rt.alloc(), parts, Mode::Run, b"row 1 BadSeat|get,64,5,")?);
    Ok(())
}

// Whether a status has this text and this code, also as it is displayed.
fn is_told(alloc: Global, status: Status, code: u8, text: &str) -> Result<bool, AllocError> {
    let shown = format!(in alloc; "{status}")?;
    Ok(status.code() == code && status.text().as_str() == text && shown.as_str() == text)
}

#[test]
fn statuses_are_told(rt: HostRuntime) -> Result<(), Fail> {
    for (status, code, text) in [
        (Status::Ok, 0, ""),
        (Status::Usage, 2, "usage"),
        (Status::ReadFault, 3, "read fault"),
        (Status::WriteFault, 4, "write fault"),
        (Status::TooLong, 5, "too long"),
        (Status::TooMany, 7, "too many"),
        (Status::NoMemory, 8, "no memory"),
        (Status::Unfinished { turns: 5 }, 9, ""),
    ] {
        assert!(rt; is_told(rt.alloc(), status, code, text)?, "{text}");
    }
    Ok(())
}

// Tells the status of a row's cause, displayed and as its text.
fn tell(text: &mut String, row: u64, cause: RowCause) -> Result<(), AllocError> {
    let status = Status::BadRow { row, cause };
    let told = status.text();
    let (code, told) = (status.code(), told.as_str());
    write!(text, "{code} {status} {told} {cause};")
}

#[test]
fn causes_are_told(rt: HostRuntime) -> Result<(), Fail> {
    let mut text = String::new(rt.alloc());
    for (row, cause) in [
        (1, RowCause::FieldCount),
        (9, RowCause::BadOp),
        (10, RowCause::BadNumber),
        (100, RowCause::BadSeat),
        (10_000, RowCause::BadKey),
        (99_999, RowCause::BadBounds),
        (1_000_000, RowCause::BadMark),
        (u64::MAX, RowCause::TurnNotHere),
    ] {
        tell(&mut text, row, cause)?;
    }
    assert_eq!(rt;
        text.as_str(),
        "6 row 1 FieldCount row 1 FieldCount FieldCount;6 row 9 BadOp row 9 BadOp BadOp;\
        6 row 10 BadNumber row 10 BadNumber BadNumber;6 row 100 BadSeat row 100 BadSeat BadSeat;\
        6 row 10000 BadKey row 10000 BadKey BadKey;6 row 99999 BadBounds row 99999 BadBounds BadBounds;\
        6 row 1000000 BadMark row 1000000 BadMark BadMark;\
        6 row 18446744073709551615 TurnNotHere row 18446744073709551615 TurnNotHere TurnNotHere;"
    );
    Ok(())
}

// Whether an item is the one of its kind in the sheet below.
fn is_meant(item: &Item) -> bool {
    match *item {
        Item::Ask { seat, call } => match call {
            Call::Put { key, value } => {
                seat == 3 && key == 5 && value.words() == [50, 7].as_slice()
            }
            Call::Range { low, high } => seat == 0 && low == 8 && high == 9,
            _ => false,
        },
        Item::Mark { seat, number } => seat == 1 && number == 6,
        Item::After { seat, number } => seat == 2 && number == 6,
        Item::Turn { seat, count } => seat == 7 && count == 4,
    }
}

#[test]
fn items_say_what_their_rows_say(rt: HostRuntime) {
    let cfg = Config::new(setting(256, 2)).expect(&rt, "a setting");
    let bytes = b"put,3,5,50:7\nrange,0,8,9\nmark,1,6,\nafter,2,6,\nturn,7,4,\n".as_slice();
    let sheet = read_sheet(rt.alloc(), bytes, Mode::Replay, &cfg).expect(&rt, "a sheet");
    assert_eq!(rt; sheet.as_slice().len(), 5);
    assert!(rt; sheet.as_slice().iter().all(is_meant));
}

// Whether this is said of so many rows, in a setting with a range's buffer of 4096 rows.
fn is_said_of(alloc: Global, row: &[u8], times: usize, text: &[u8]) -> Result<bool, AllocError> {
    let mut bytes = Vec::new(alloc);
    for _ in 0..times {
        bytes.extend_from_slice(row)?;
    }
    let said = said_of(alloc, setting(4096, 1), Mode::Replay, &bytes)?;
    Ok(said.as_bytes() == text)
}

#[test]
fn sheets_are_too_many(rt: HostRuntime) -> Result<(), Fail> {
    let alloc = rt.alloc();
    assert!(rt; is_said_of(alloc, b"turn,0,50000000,\n", 1, b"1 false")?);
    assert!(rt; is_said_of(alloc, b"turn,0,50000001,\n", 1, b"too many")?);
    assert!(rt; is_said_of(alloc, b"turn,0,25000001,\n", 2, b"too many")?);
    assert!(rt; is_said_of(alloc, b"turn,0,9223372036854775808,\n", 2, b"too many")?);
    let range = b"range,0,1,18446744073709551615\n";
    assert!(rt; is_said_of(alloc, range, 1024, b"1024 false")?);
    assert!(rt; is_said_of(alloc, range, 1025, b"too many")?);
    assert!(rt; is_said_of(alloc, b"range,0,8,9\n", 1025, b"1025 false")?);
    assert!(rt; is_said_of(alloc, b"get,0,1,\n", 100_001, b"100001 false")?);
    Ok(())
}
