//! Calls and their replies, the log of changes, and the book that says what a lawful answer is.
#![tactic(auto)]

mod book;
mod call;
mod entries;
mod laws;
mod log;
mod made;
mod misfit;
mod order;
mod owners;
mod plain_map;
mod ranges;
mod replies;
mod sweep;
mod tree_map;

pub use book::{Book, Done, Dones, Row, Rows};
pub use call::{Call, Reply};
pub use laws::{book_laws, get_laws, log_laws};
pub use log::{Change, Entry, Log};
pub use made::log_call;
pub use misfit::{Misfit, judge};
pub use plain_map::PlainMap;

#[cfg(test)]
mod books;

#[cfg(test)]
mod tests {
    use super::*;
    use sh_base::{Config, Value};
    use std::test::Fail;

    #[test]
    fn calls_in_range(rt: HostRuntime) {
        let cfg = Config::default();
        let word = Value::of(&[50]);
        let words = Value::of(&[50, 51]);
        for (call, want) in [
            (Call::Get { key: 0 }, false),
            (Call::Get { key: 1 }, true),
            (Call::Del { key: u64::MAX - 1 }, true),
            (Call::Del { key: u64::MAX }, false),
            (
                Call::Put {
                    key: 5,
                    value: word,
                },
                true,
            ),
            (
                Call::Put {
                    key: 5,
                    value: words,
                },
                false,
            ),
            (Call::Range { low: 5, high: 5 }, true),
            (
                Call::Range {
                    low: 5,
                    high: u64::MAX,
                },
                true,
            ),
            (Call::Range { low: 5, high: 4 }, false),
            (Call::Range { low: 0, high: 4 }, false),
        ] {
            assert_eq!(rt; call.in_range(&cfg), want, "{call:?}");
        }
    }

    #[test]
    fn rows_are_kept_in_order(rt: HostRuntime) -> Result<(), Fail> {
        let mut rows = Rows::new(rt.alloc());
        for key in [5, 7] {
            rows.push(Row {
                key,
                value: Value::of(&[10 * key]),
            })?;
        }
        let rows = rows.as_slice();
        assert_eq!(rt; rows.len(), 2);
        assert_eq!(rt; [rows[0].key, rows[1].key], [5, 7]);
        assert_eq!(rt; rows[1].value.words(), [70].as_slice());
        Ok(())
    }

    #[test]
    fn plain_map_answers_the_value_before(rt: HostRuntime) -> Result<(), Fail> {
        let mut map = PlainMap::new(rt.alloc());
        assert!(rt; map.put(5, Value::of(&[50]))? == None);
        assert!(rt; map.put(5, Value::of(&[51]))? == Some(Value::of(&[50])));
        assert!(rt; map.put(4, Value::of(&[40]))? == None);
        assert!(rt; map.get(5) == Some(Value::of(&[51])));
        assert!(rt; map.del(5) == Some(Value::of(&[51])));
        assert!(rt; map.del(5) == None);
        assert_eq!(rt; map.pairs().len(), 1);
        let rows = map.into_rows();
        let rows = rows.as_slice();
        assert_eq!(rt; rows.len(), 1);
        assert_eq!(rt; rows[0].key, 4);
        Ok(())
    }

    #[test]
    fn laws_are_called() {
        log_laws();
        get_laws();
        book_laws();
    }
}
