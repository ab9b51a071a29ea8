//! A node through time and what a READ of it knows; and the READ itself, that is fed a word at a time.
#![tactic(auto)]

mod laws;
mod reading;
mod state;

pub use laws::{entries_under_way, fed_words_fit, judged_by_causes, read_law, reads_under_way};
pub use state::{Progress, Reading};

#[cfg(test)]
mod tests {
    use super::*;
    use sh_base::{Config, ConfigParts};
    use sh_image::Image;

    // Leaves of four entries, with values of one word. A node has 23 words, and the pool has two nodes.
    fn small() -> Config {
        let parts = ConfigParts {
            servers: 1,
            chunks: 1,
            chunk_nodes: 2,
            locks: 1,
            leaf: 4,
            computes: 1,
            seats: 1,
            bound: 0,
            bits: 4,
            rows: 1,
            cached: 0,
            value_words: 1,
        };
        Config::new(parts).unwrap_or_default()
    }

    // Leaves of 64 entries, with values of eight words: a node has 711 words.
    fn large() -> Config {
        let parts = ConfigParts {
            leaf: 64,
            value_words: 8,
            chunks: 1,
            ..ConfigParts::default()
        };
        Config::new(parts).unwrap_or_default()
    }

    // Version 7, keys from 10 on below 20, next leaf 2; an empty entry, two with a key, and an empty one.
    const LEAF: [u64; 23] = [
        7, 0, 10, 20, 2, 0, 0, 0, 0, 0, 15, 10, 500, 15, 3, 19, 501, 3, 0, 0, 0, 0, 7,
    ];

    // Version 7, level 1, keys from 10 on below 20, next node 2; the pairs (10, 1) and (15, 2).
    const INNER: [u64; 23] = [
        7, 1, 10, 20, 2, 2, 10, 1, 15, 2, 0, 0, 0, 0, 0, 0, 0, 0, 0, 0, 0, 0, 7,
    ];

    // The node with another word at an offset.
    fn with(node: [u64; 23], at: usize, word: u64) -> [u64; 23] {
        let mut words = node;
        if at < 23 {
            words[at] = word;
        }
        words
    }

    // The last answer of a READ of a node, the second one or the first, that is fed the words from the last one down.
    fn answer(reading: &mut Reading, words: &[u64]) -> Progress {
        let mut answer = Progress::More;
        for place in 0..words.len() {
            if reading.want().is_some() {
                answer = reading.fed(words[words.len() - 1 - place]);
            }
        }
        answer
    }

    #[test]
    fn words_are_judged_when_all_are_loaded(rt: HostRuntime) {
        let cfg = small();
        assert_eq!(rt; [cfg.nodes(), cfg.node_word(1)], [2, 4]);
        let again = |rear, front| Progress::Again { rear, front };
        for (words, last, want) in [
            (LEAF.as_slice(), Progress::Accepted, None),
            (INNER.as_slice(), Progress::Accepted, None),
            (&LEAF[1..], Progress::More, Some(27)),
            (&LEAF[22..], Progress::More, Some(48)),
            (&[], Progress::More, Some(49)),
            (with(LEAF, 22, 6).as_slice(), again(6, 7), Some(49)),
            (with(LEAF, 0, 8).as_slice(), again(7, 8), Some(49)),
            (with(INNER, 0, 8).as_slice(), again(7, 8), Some(49)),
            (with(LEAF, 13, 14).as_slice(), again(14, 15), Some(49)),
            (with(LEAF, 3, 10).as_slice(), Progress::Odd, None),
            (with(INNER, 9, 3).as_slice(), Progress::Odd, None),
        ] {
            let mut reading = Reading::new(&cfg, 2);
            assert_eq!(rt; answer(&mut reading, words), last);
            assert_eq!(rt; reading.want(), want);
        }
    }

    // The version of the node that a READ answers to these words, and none where it answers none.
    fn version(reading: &mut Reading, words: &[u64]) -> Option<u64> {
        for place in 0..words.len() {
            if reading.want().is_some() {
                match reading.fed(words[words.len() - 1 - place]) {
                    Progress::Accepted => return Some(version_of(reading.image())),
                    Progress::More | Progress::Again { .. } | Progress::Odd => {}
                }
            }
        }
        None
    }

    fn version_of(image: &Image) -> u64 {
        match image {
            Image::Leaf(leaf) => leaf.version(),
            Image::Inner(inner) => inner.version(),
        }
    }

    #[test]
    fn torn_words_are_loaded_again(rt: HostRuntime) {
        let cfg = small();
        assert_eq!(rt; cfg.nodes(), 2);
        let mut reading = Reading::new(&cfg, 1);
        assert_eq!(rt; version(&mut reading, &with(LEAF, 0, 8)), None);
        assert_eq!(rt; version(&mut reading, &with(LEAF, 17, 4)), None);
        assert_eq!(rt; version(&mut reading, &LEAF), Some(7));
        assert_eq!(rt; version(&mut reading, &INNER), None);
        let mut reading = Reading::new(&cfg, 1);
        assert_eq!(rt; version(&mut reading, &INNER), Some(7));
    }

    // The last answer to so many words that are 0.
    fn answer_to_zeros(reading: &mut Reading, count: u32) -> Progress {
        let mut answer = Progress::More;
        for _ in 0..count {
            if reading.want().is_some() {
                answer = reading.fed(0);
            }
        }
        answer
    }

    #[test]
    fn the_largest_node_has_711_words(rt: HostRuntime) {
        let cfg = large();
        assert_eq!(rt; [cfg.nodes(), cfg.node_size()], [64, 711]);
        let mut reading = Reading::new(&cfg, 64);
        assert_eq!(rt; answer_to_zeros(&mut reading, 710), Progress::More);
        assert_eq!(rt; reading.want(), Some(cfg.node_word(64)));
        assert_eq!(rt; answer_to_zeros(&mut reading, 1), Progress::Odd);
        assert_eq!(rt; reading.want(), None);
    }

    // The level of a node that is read from its start, and its number of entries or pairs.
    fn shape(reading: &mut Reading, words: &[u64]) -> Option<(u64, u32)> {
        let node = reading.node();
        reading.within_its_node();
        reading.start(node);
        for place in 0..words.len() {
            if reading.want().is_some() {
                match reading.fed(words[words.len() - 1 - place]) {
                    Progress::Accepted => return Some(shape_of(reading.image())),
                    Progress::More | Progress::Again { .. } | Progress::Odd => {}
                }
            }
        }
        None
    }

    fn shape_of(image: &Image) -> (u64, u32) {
        match image {
            Image::Leaf(leaf) => (0, leaf.entries()),
            Image::Inner(inner) => (inner.level(), inner.pairs()),
        }
    }

    #[test]
    fn leaves_and_inner_nodes_are_read_in_turn(rt: HostRuntime) {
        let cfg = small();
        assert_eq!(rt; cfg.nodes(), 2);
        let mut reading = Reading::new(&cfg, 1);
        for (words, want) in [
            (INNER, Some((1, 2))),
            (LEAF, Some((0, 4))),
            (with(INNER, 9, 3), None),
            (INNER, Some((1, 2))),
            (with(LEAF, 0, 8), None),
            (LEAF, Some((0, 4))),
        ] {
            assert_eq!(rt; shape(&mut reading, &words), want);
        }
    }
}
