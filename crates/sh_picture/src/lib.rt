//! Pictures of a pool: its words as bytes, written, and read back with a verdict on the tree that they hold.
#![tactic(auto)]

mod checking;
mod code;
mod ending;
mod header;
mod keys;
mod laws;
mod lines;
mod node;
mod painting;
mod pairs;
mod place;
mod top;
mod verdict;
mod walked;
mod walking;
mod words;
mod writing;

pub use checking::check;
pub use ending::PictureStatus;
pub use laws::{
    check_sure, checks_are_complete, lawful_pictures_have_no_place, pictures_of_trees_are_lawful,
    places_are_one,
};
pub use painting::paint;
pub use place::FirstPlace;
pub use top::{MOST_BYTES, check_top};
pub use verdict::Verdict;

#[cfg(test)]
mod tests {
    use super::*;
    use sh_base::{Config, ConfigParts};
    use sh_port::{ListSink, ListSource};
    use sh_sheet::Status;
    use std::alloc::{AllocError, Global};
    use std::test::Fail;

    const MOST: u64 = u64::MAX;

    // One server of four chunks of eight nodes of 23 words: 803 words in all.
    fn small() -> Config {
        let parts = ConfigParts {
            servers: 1,
            chunks: 4,
            chunk_nodes: 8,
            leaf: 4,
            computes: 1,
            seats: 3,
            cached: 0,
            ..ConfigParts::default()
        };
        Config::new(parts).unwrap_or_default()
    }

    // One node of 23 words: 27 words in all.
    fn tiny() -> Config {
        let parts = ConfigParts {
            servers: 1,
            chunks: 1,
            chunk_nodes: 1,
            locks: 1,
            leaf: 4,
            ..ConfigParts::default()
        };
        Config::new(parts).unwrap_or_default()
    }

    // Puts words down from a place on, where there is room for them.
    fn put(words: &mut [u64], at: usize, from: &[u64]) {
        if at > 100_000 {
            return;
        }
        if let Some(out) = words.get_mut(at..at + from.len()) {
            out.copy_from_slice(from);
        }
    }

    // The picture of words that are put down at these places of a pool of 0.
    fn painted(
        alloc: Global,
        cfg: &Config,
        parts: &[(usize, &[u64])],
    ) -> Result<Vec<u8>, AllocError> {
        let mut words = vec![in alloc; 0; cfg.words() as usize]?;
        for part in parts {
            put(&mut words, part.0, part.1);
        }
        let mut sink = ListSink::new(alloc, 10_000, 5_000, Vec::new(alloc))?;
        if words.len() == cfg.words() as usize {
            let _ = paint(cfg, &words, &mut sink);
        }
        sink.bytes().to_vec(alloc)
    }

    // The small pool with one key.
    fn one_key(alloc: Global) -> Result<Vec<u8>, AllocError> {
        painted(
            alloc,
            &small(),
            &[
                (1, &[1, 1]),
                (67, &[0, 0, 0, MOST, 0, 0]),
                (73, &[1, 5, 50, 1]),
            ],
        )
    }

    // The small pool with five keys in two leaves, 1 and 9, under the root, 10.
    fn five_keys(alloc: Global) -> Result<Vec<u8>, AllocError> {
        painted(
            alloc,
            &small(),
            &[
                (1, &[10, 2]),
                (67, &[1, 0, 0, 30, 9, 0]),
                (73, &[1, 10, 1, 1, 1, 20, 2, 1]),
                (89, &[1]),
                (251, &[0, 0, 30, MOST, 0, 0]),
                (257, &[0, 30, 3, 0, 0, 40, 4, 0, 0, 50, 5, 0]),
                (274, &[0, 1, 0, MOST, 0, 2, 0, 1, 30, 9]),
            ],
        )
    }

    // The tiny pool as it is laid: 272 bytes.
    fn laid(alloc: Global) -> Result<Vec<u8>, AllocError> {
        painted(alloc, &tiny(), &[(1, &[1, 1]), (4, &[0, 0, 0, MOST, 0, 0])])
    }

    // Whether the check of these bytes ends with this code and writes this text.
    fn ends(
        alloc: Global,
        words: &[&str],
        bytes: &[u8],
        code: u8,
        text: &[u8],
    ) -> Result<bool, AllocError> {
        let mut source = ListSource::new(bytes.to_vec(alloc)?, 1_000, Vec::new(alloc));
        let mut sink = ListSink::new(alloc, 1_000, 7, Vec::new(alloc))?;
        let status = check_top(alloc, words, &mut source, &mut sink);
        Ok(status.code() == code && sink.bytes() == text)
    }

    // The same bytes, but one.
    fn changed(alloc: Global, bytes: &[u8], at: usize, byte: u8) -> Result<Vec<u8>, AllocError> {
        let mut bytes = bytes.to_vec(alloc)?;
        if let Some(there) = bytes.get_mut(at) {
            *there = byte;
        }
        Ok(bytes)
    }

    #[test]
    fn a_pool_with_one_key_is_lawful(rt: HostRuntime) -> Result<(), Fail> {
        let alloc = rt.alloc();
        let bytes = one_key(alloc)?;
        assert_eq!(rt; bytes.len(), 6_480);
        assert!(rt; ends(alloc, &[], &bytes, 0, b"lawful,1,50\n")?);
        assert!(rt; ends(alloc, &["--map"], &bytes, 0, b"map,5,50\nlawful,1,50\n")?);
        Ok(())
    }

    #[test]
    fn a_held_lock_a_byte_too_few_and_no_byte(rt: HostRuntime) -> Result<(), Fail> {
        let alloc = rt.alloc();
        let bytes = one_key(alloc)?;
        let held = changed(alloc, &bytes, 87, 1)?;
        assert!(rt; ends(alloc, &[], &held, 11, b"refused,lock,0\n")?);
        let mut cut = bytes;
        cut.truncate(6_479);
        assert!(rt; ends(alloc, &[], &cut, 11, b"refused,length\n")?);
        assert!(rt; ends(alloc, &[], &[], 11, b"refused,short\n")?);
        Ok(())
    }

    #[test]
    fn a_laid_pool_is_lawful_and_empty(rt: HostRuntime) -> Result<(), Fail> {
        let alloc = rt.alloc();
        let bytes = laid(alloc)?;
        assert_eq!(rt; bytes.len(), 272);
        assert!(rt; ends(alloc, &[], &bytes, 0, b"lawful,0,0\n")?);
        Ok(())
    }

    // Whether this is told of the picture with one byte changed.
    fn tells(
        alloc: Global,
        bytes: &[u8],
        at: usize,
        byte: u8,
        text: &[u8],
    ) -> Result<bool, AllocError> {
        ends(alloc, &[], &changed(alloc, bytes, at, byte)?, 11, text)
    }

    #[test]
    fn each_place_by_one_byte(rt: HostRuntime) -> Result<(), Fail> {
        let alloc = rt.alloc();
        let bytes = five_keys(alloc)?;
        assert!(rt; ends(alloc, &[], &bytes, 0, b"lawful,5,15\n")?);
        assert!(rt; tells(alloc, &bytes, 3, 0, b"refused,magic,3\n")?);
        assert!(rt; tells(alloc, &bytes, 27, 3, b"refused,setting\n")?);
        assert!(rt; tells(alloc, &bytes, 27, 5, b"refused,length\n")?);
        assert!(rt; tells(alloc, &bytes, 63, 1, b"refused,zero\n")?);
        assert!(rt; tells(alloc, &bytes, 95, 1, b"refused,lock,1\n")?);
        assert!(rt; tells(alloc, &bytes, 71, 33, b"refused,root\n")?);
        // The second leaf begins at 31.
        assert!(rt; tells(alloc, &bytes, 2_087, 31, b"refused,chain,0,9\n")?);
        // The root doesn't begin at 0.
        assert!(rt; tells(alloc, &bytes, 2_271, 1, b"refused,root\n")?);
        // The second separator is 29.
        assert!(rt; tells(alloc, &bytes, 2_319, 29, b"refused,pair,10,1\n")?);
        // The second leaf has 40 twice.
        assert!(rt; tells(alloc, &bytes, 2_191, 40, b"refused,twice,9,40\n")?);
        Ok(())
    }

    #[test]
    fn of_two_places_the_first_is_told(rt: HostRuntime) -> Result<(), Fail> {
        let alloc = rt.alloc();
        let bytes = five_keys(alloc)?;
        // A key twice, and a separator astray.
        let bytes = changed(alloc, &bytes, 2_191, 40)?;
        let bytes = changed(alloc, &bytes, 2_319, 29)?;
        assert!(rt; ends(alloc, &[], &bytes, 11, b"refused,pair,10,1\n")?);
        // And a leaf that begins elsewhere, and a lock that is held.
        let bytes = changed(alloc, &bytes, 2_087, 31)?;
        assert!(rt; ends(alloc, &[], &bytes, 11, b"refused,chain,0,9\n")?);
        let bytes = changed(alloc, &bytes, 95, 1)?;
        assert!(rt; ends(alloc, &[], &bytes, 11, b"refused,lock,1\n")?);
        Ok(())
    }

    // The least and the greatest number of a field of the setting.
    fn range_of(field: usize) -> (u32, u32) {
        match field {
            1 | 9 => (1, 4096),
            2 => (1, 256),
            3 => (1, 1024),
            4 => (4, 64),
            7 => (0, 64),
            8 => (4, 48),
            10 => (0, 256),
            _ => (1, 8),
        }
    }

    // The lines of the laid pool's picture with another number in the setting. The computes, seats, bound, bits, rows
    // and cached rows are no words of a pool.
    fn with_number(field: usize, number: u32) -> &'static str {
        let range = range_of(field);
        if number < range.0 || number > range.1 {
            return "refused,setting\n";
        }
        match field {
            5 | 6 | 7 | 8 | 9 | 10 => "lawful,0,0\n",
            _ => "refused,length\n",
        }
    }

    // The lines of the laid pool's picture with another word at this place.
    fn with_word(word: usize) -> &'static str {
        match word {
            0 => "refused,zero\n",
            // The counter says nothing of the tree.
            2 => "lawful,0,0\n",
            3 => "refused,lock,0\n",
            // The leaf begins elsewhere.
            6 => "refused,chain,0,1\n",
            // A key with the value 0.
            11 | 15 | 19 | 23 => "lawful,1,0\n",
            _ => "refused,root\n",
        }
    }

    // The number of the four bytes from a place on.
    fn number_at(bytes: &[u8], at: usize) -> u32 {
        let mut number = 0u32;
        for byte in bytes.iter().skip(at).take(4) {
            number = number.wrapping_mul(256).wrapping_add(u32::from(*byte));
        }
        number
    }

    // The line of the laid pool's picture, in which the byte at this place has changed.
    fn with_byte(alloc: Global, bytes: &[u8], at: usize) -> Result<String, AllocError> {
        if at < 8 {
            return format!(in alloc; "refused,magic,{at}\n");
        }
        if at < 56 {
            let field = (at - 8) / 4;
            return String::from_str(alloc, with_number(field, number_at(bytes, 8 + 4 * field)));
        }
        String::from_str(alloc, with_word((at - 56) / 8))
    }

    // Whether the laid pool's picture with this byte at this place has the lines that it should have.
    fn holds_with(alloc: Global, bytes: &[u8], at: usize, byte: u8) -> Result<bool, AllocError> {
        let bytes = changed(alloc, bytes, at, byte)?;
        let lines = with_byte(alloc, &bytes, at)?;
        let code = if lines.as_bytes().starts_with(b"lawful") {
            0
        } else {
            11
        };
        ends(alloc, &[], &bytes, code, lines.as_bytes())
    }

    #[test]
    fn every_byte_of_a_laid_pool_counts(rt: HostRuntime) -> Result<(), Fail> {
        let alloc = rt.alloc();
        let bytes = laid(alloc)?;
        for at in 0..272 {
            let byte = bytes.get(at).copied().unwrap_or(0);
            assert!(rt; holds_with(alloc, &bytes, at, byte ^ 1)?);
            assert!(rt; holds_with(alloc, &bytes, at, byte ^ 128)?);
            assert!(rt; holds_with(alloc, &bytes, at, byte ^ 255)?);
        }
        Ok(())
    }

    // The code of a check of so many bytes of 0.
    fn code_of_zeros(alloc: Global, count: usize) -> Result<u8, AllocError> {
        let bytes = vec![in alloc; 0; count]?;
        let mut source = ListSource::new(bytes, 100_000, Vec::new(alloc));
        let mut sink = ListSink::new(alloc, 100, 7, Vec::new(alloc))?;
        Ok(check_top(alloc, &[], &mut source, &mut sink).code())
    }

    #[test]
    fn as_many_bytes_as_the_largest_pool_has_and_one_more(rt: HostRuntime) -> Result<(), Fail> {
        assert_eq!(rt; code_of_zeros(rt.alloc(), 33_554_488)?, 11);
        assert_eq!(rt; code_of_zeros(rt.alloc(), 33_554_489)?, 5);
        Ok(())
    }

    #[test]
    fn refused_words_and_faults(rt: HostRuntime) -> Result<(), Fail> {
        let alloc = rt.alloc();
        let bytes = one_key(alloc)?;
        assert!(rt; ends(alloc, &["--keys"], &bytes, 2, b"")?);
        assert!(rt; ends(alloc, &["--map", "--map"], &bytes, 2, b"")?);
        let mut source = ListSource::new(bytes.to_vec(alloc)?, 100, vec![in alloc; 2]?);
        let mut sink = ListSink::new(alloc, 100, 7, Vec::new(alloc))?;
        assert_eq!(rt; check_top(alloc, &[], &mut source, &mut sink).code(), 3);
        assert_eq!(rt; sink.bytes().len(), 0);
        let mut source = ListSource::new(bytes, 100, Vec::new(alloc));
        let mut sink = ListSink::new(alloc, 100, 7, vec![in alloc; 2]?)?;
        assert!(rt;
            check_top(alloc, &[], &mut source, &mut sink)
                == PictureStatus::Served(Status::WriteFault)
        );
        assert!(rt; sink.bytes() == b"lawful,".as_slice());
        Ok(())
    }

    // Whether an end has this text and this code, also as it is displayed.
    fn is_told(
        alloc: Global,
        end: PictureStatus,
        code: u8,
        text: &str,
    ) -> Result<bool, AllocError> {
        let shown = format!(in alloc; "{end}")?;
        Ok(end.code() == code && end.text().as_str() == text && shown.as_str() == text)
    }

    #[test]
    fn ends_are_told(rt: HostRuntime) -> Result<(), Fail> {
        for (end, code, text) in [
            (PictureStatus::Served(Status::Ok), 0, ""),
            (PictureStatus::Served(Status::Usage), 2, "usage"),
            (PictureStatus::Served(Status::NoMemory), 8, "no memory"),
            (PictureStatus::NotLawful, 11, ""),
        ] {
            assert!(rt; is_told(rt.alloc(), end, code, text)?, "{text}");
        }
        Ok(())
    }
}
