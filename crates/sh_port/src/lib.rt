//! Where bytes come from and where they go: sources and sinks that may fail, in memory and over std's streams.
#![tactic(auto)]

mod list;
mod loops;
mod port;
mod std_port;
mod sure;

pub use list::{ListSink, ListSource};
pub use loops::{Bytes, Intake, MOST_BYTES, read_all, read_up_to, write_all, write_line};
pub use port::{Failed, Sink, Source};
pub use std_port::{StdSink, StdSource};
pub use sure::{SureSink, SureSource};

#[cfg(test)]
mod tests {
    use super::*;
    use std::test::Fail;

    #[test]
    fn bytes_go_through_and_faults_are_told(rt: HostRuntime) -> Result<(), Fail> {
        let alloc = rt.alloc();
        let mut source = ListSource::new(b"abcdefg".to_vec(alloc)?, 3, Vec::new(alloc));
        let bytes = read_all(alloc, &mut source).expect(&rt, "an input");
        let mut sink = ListSink::new(alloc, 64, 2, vec![in alloc; 4]?)?;
        assert!(rt; write_all(&mut sink, bytes.as_slice()).is_err());
        assert_eq!(rt; sink.bytes(), b"abcdef".as_slice());
        let mut source = StdSource::new(b"abc".as_slice());
        assert_eq!(rt;
            read_all(alloc, &mut source)
                .expect(&rt, "an input")
                .as_slice(),
            b"abc".as_slice()
        );
        let mut sink = StdSink::new(Vec::new(alloc));
        assert!(rt; write_all(&mut sink, b"abc").is_ok());
        Ok(())
    }
}
