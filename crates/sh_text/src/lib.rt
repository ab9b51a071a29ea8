//! The lines of an answer, and the functions that write them to a sink.
#![tactic(auto)]

mod call;
mod counting;
mod counts;
mod finished;
mod line;
mod points;
mod push;
mod sums;
mod write;

pub use call::{call_line, pending_line};
pub use counting::{add_answer, counts_line, counts_of};
pub use counts::Counts;
pub use finished::Finished;
pub use line::{end_line, event_line, made_line, map_line, row_line, unfinished_line};
pub use points::Points;
pub use sums::{sum_of, sum_of_value};
pub use write::{
    WriteError, write_call, write_calls, write_counts, write_end, write_end_lines, write_event,
    write_finished, write_made, write_map, write_map_lines, write_pending, write_row, write_rows,
    write_unfinished,
};

#[cfg(test)]
mod tests {
    use super::*;
    use sh_base::{Event, Value};
    use sh_map::{Call, Done, Reply, Row, Rows};
    use sh_port::ListSink;
    use std::alloc::Global;
    use std::test::Fail;

    fn done(alloc: Global, n: u32, call: Call, reply: Reply, first: u64, point: u64) -> Done {
        Done {
            n,
            seat: 3,
            call,
            reply,
            first,
            point,
            rows: Rows::new(alloc),
        }
    }

    fn row(key: u64, value: Value) -> Row {
        Row { key, value }
    }

    fn put() -> Call {
        Call::Put {
            key: 5,
            value: Value::of(&[50, 0]),
        }
    }

    fn get() -> Call {
        Call::Get { key: u64::MAX - 1 }
    }

    fn range() -> Call {
        Call::Range { low: 10, high: 20 }
    }

    fn before() -> Reply {
        Reply::Some(Value::of(&[7, u64::MAX]))
    }

    // A call of each kind with each reply that it may have.
    fn calls(alloc: Global) -> Result<Vec<Done>, Fail> {
        let mut dones = Vec::new(alloc);
        dones.push(done(alloc, 1, put(), Reply::None, 0, 0))?;
        dones.push(done(alloc, 2, put(), before(), 1, 1))?;
        dones.push(done(alloc, 3, get(), before(), 0, 12))?;
        dones.push(done(alloc, 4, get(), Reply::None, 0, 12))?;
        dones.push(done(alloc, 5, Call::Del { key: 5 }, Reply::None, 2, 9))?;
        let mut part = done(alloc, 6, range(), Reply::Rows { upto: 13 }, 2, 4);
        part.rows.push(row(10, Value::of(&[1, 2])))?;
        part.rows.push(row(12, Value::of(&[3, 40])))?;
        dones.push(part)?;
        dones.push(done(alloc, 7, range(), Reply::Rows { upto: 20 }, 4, 4))?;
        dones.push(done(alloc, 8, put(), Reply::Full, 4, 4))?;
        dones.push(done(alloc, 9, put(), Reply::Worn { version: 15 }, 4, 4))?;
        Ok(dones)
    }

    #[test]
    fn calls_with_their_points(rt: HostRuntime) -> Result<(), Fail> {
        let alloc = rt.alloc();
        let dones = calls(alloc)?;
        let mut sink = ListSink::new(alloc, 1024, 7, Vec::new(alloc))?;
        assert!(rt; write_calls(alloc, &mut sink, Points::Shown, &dones).is_ok());
        assert_eq!(rt;
            sink.bytes(),
            b"1,3,put,5,50:0,none,,0\n2,3,put,5,50:0,some,7:18446744073709551615,1\n3,3,get,18446744073709551614,,some,7:18446744073709551615,12\n4,3,get,18446744073709551614,,none,,12\n5,3,del,5,,none,,9\n6,3,range,10,20,part,13,2:4\nrow,6,10,1:2\nrow,6,12,3:40\n7,3,range,10,20,rows,20,4:4\n8,3,put,5,50:0,full,,\n9,3,put,5,50:0,worn,15,\n".as_slice()
        );
        Ok(())
    }

    #[test]
    fn calls_without_points(rt: HostRuntime) -> Result<(), Fail> {
        let alloc = rt.alloc();
        let dones = calls(alloc)?;
        let mut sink = ListSink::new(alloc, 1024, 7, Vec::new(alloc))?;
        assert!(rt; write_calls(alloc, &mut sink, Points::Hidden, &dones).is_ok());
        assert_eq!(rt;
            sink.bytes(),
            b"1,3,put,5,50:0,none,\n2,3,put,5,50:0,some,7:18446744073709551615\n3,3,get,18446744073709551614,,some,7:18446744073709551615\n4,3,get,18446744073709551614,,none,\n5,3,del,5,,none,\n6,3,range,10,20,part,13\nrow,6,10,1:2\nrow,6,12,3:40\n7,3,range,10,20,rows,20\n8,3,put,5,50:0,full,\n9,3,put,5,50:0,worn,15\n".as_slice()
        );
        Ok(())
    }

    #[test]
    fn calls_that_have_not_ended(rt: HostRuntime) -> Result<(), Fail> {
        let alloc = rt.alloc();
        let mut sink = ListSink::new(alloc, 1024, 7, Vec::new(alloc))?;
        assert!(rt; write_pending(alloc, &mut sink, Points::Shown, 2, 1, &put()).is_ok());
        assert!(rt;
            write_pending(alloc, &mut sink, Points::Shown, 3, 0, &Call::Get { key: 5 }).is_ok()
        );
        assert!(rt; write_pending(alloc, &mut sink, Points::Hidden, 4, 7, &range()).is_ok());
        assert!(rt; write_unfinished(alloc, &mut sink, 4, 1).is_ok());
        assert_eq!(rt;
            sink.bytes(),
            b"2,1,put,5,50:0,pending,,\n3,0,get,5,,pending,,\n4,7,range,10,20,pending,\nunfinished,4,1\n".as_slice()
        );
        Ok(())
    }

    #[test]
    fn keys_of_the_map_and_the_last_line(rt: HostRuntime) -> Result<(), Fail> {
        let alloc = rt.alloc();
        let mut rows = Vec::new(alloc);
        rows.push(row(1, Value::of(&[0])))?;
        rows.push(row(u64::MAX - 1, Value::of(&[50, 7, u64::MAX])))?;
        let mut sink = ListSink::new(alloc, 1024, 7, Vec::new(alloc))?;
        assert!(rt; write_map(alloc, &mut sink, &rows).is_ok());
        assert!(rt; write_end(alloc, &mut sink, 2, 2, 57 + u128::from(u64::MAX)).is_ok());
        assert_eq!(rt;
            sink.bytes(),
            b"map,1,0\nmap,18446744073709551614,50:7:18446744073709551615\nend,2,2,18446744073709551672\n".as_slice()
        );
        Ok(())
    }

    #[test]
    fn events_of_each_kind(rt: HostRuntime) -> Result<(), Fail> {
        let alloc = rt.alloc();
        let swap = Event::Exchange {
            at: 9,
            old: 0,
            new: 2,
        };
        let mut sink = ListSink::new(alloc, 1024, 7, Vec::new(alloc))?;
        assert!(rt; write_event(alloc, &mut sink, 0, &Event::Load { at: 1 }, 17).is_ok());
        assert!(rt;
            write_event(alloc, &mut sink, 1, &Event::Store { at: 803, word: 5 }, 0).is_ok()
        );
        assert!(rt; write_event(alloc, &mut sink, 2, &swap, 1).is_ok());
        assert!(rt; write_event(alloc, &mut sink, 7, &Event::Add { at: 2 }, 3).is_ok());
        assert_eq!(rt;
            sink.bytes(),
            b"event,0,load,1,17\nevent,1,store,803,5\nevent,2,exchange,9,0,2,1\nevent,7,add,2,3\n".as_slice()
        );
        Ok(())
    }

    #[test]
    fn made_calls_and_their_counts(rt: HostRuntime) -> Result<(), Fail> {
        let alloc = rt.alloc();
        let counts = counts_of(&calls(alloc)?);
        assert_eq!(rt;
            counts,
            Counts {
                some: 2,
                none: 3,
                rows: 1,
                part: 1,
                full: 1,
                worn: 1
            }
        );
        let mut sink = ListSink::new(alloc, 1024, 7, Vec::new(alloc))?;
        assert!(rt; write_made(alloc, &mut sink, 10, 7).is_ok());
        assert!(rt; write_counts(alloc, &mut sink, &counts).is_ok());
        assert_eq!(rt; sink.bytes(), b"made,10,7\ncounts,2,3,1,1,1,1\n".as_slice());
        Ok(())
    }

    #[test]
    fn a_failed_write_leaves_a_front(rt: HostRuntime) -> Result<(), Fail> {
        let alloc = rt.alloc();
        let dones = calls(alloc)?;
        let mut sink = ListSink::new(alloc, 40, 7, Vec::new(alloc))?;
        let failed = match write_calls(alloc, &mut sink, Points::Shown, &dones) {
            Err(WriteError::Fault) => true,
            _ => false,
        };
        assert!(rt; failed);
        assert_eq!(rt;
            sink.bytes(),
            b"1,3,put,5,50:0,none,,0\n2,3,put,5,50:0,so".as_slice()
        );
        let mut rows = Vec::new(alloc);
        rows.push(row(10, Value::of(&[1, 2])))?;
        let mut sink = ListSink::new(alloc, 1024, 7, vec![in alloc; 2]?)?;
        assert!(rt; write_map(alloc, &mut sink, &rows).is_err());
        assert_eq!(rt; sink.bytes(), b"map,10,".as_slice());
        Ok(())
    }
}
