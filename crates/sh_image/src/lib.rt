//! Images of leaves, the words that spell them, and what the words of a node are.
#![tactic(auto)]

mod inner;
mod laws;
mod leaf;
mod read;
mod read_inner;
mod read_leaf;
mod write;

pub use inner::{Image, InnerImage, Pair};
pub use laws::{
    causes_shut_each_other_out, inner_nodes_spelled_once, leaves_spelled_once,
    nodes_have_one_answer,
};
pub use leaf::{LeafEntry, LeafImage};
pub use read::{Found, Seen, read_image, read_into};
pub use write::{write_entry, write_inner, write_leaf};

#[cfg(test)]
mod tests {
    use super::*;
    use sh_base::{Config, ConfigFault, ConfigParts, Value};
    use std::alloc::{AllocError, Global};

    // Leaves of so many entries, with values of so many words; the pool has two nodes.
    fn setting(leaf: u32, value_words: u32) -> Result<Config, ConfigFault> {
        Config::new(ConfigParts {
            servers: 1,
            chunks: 1,
            chunk_nodes: 2,
            locks: 1,
            leaf,
            computes: 1,
            seats: 1,
            bound: 0,
            bits: 4,
            rows: 1,
            cached: 0,
            value_words,
        })
    }

    // Leaves of four entries, with values of one word. Version 7, keys from 10 on below 20, next leaf 2; an empty
    // entry, two with a key, and an empty one.
    const LEAF: [u64; 23] = [
        7, 0, 10, 20, 2, 0, 0, 0, 0, 0, 15, 10, 500, 15, 3, 19, 501, 3, 0, 0, 0, 0, 7,
    ];

    // Version 7, level 1, keys from 10 on below 20, next node 2; the pairs (10, 1) and (15, 2).
    const INNER: [u64; 23] = [
        7, 1, 10, 20, 2, 2, 10, 1, 15, 2, 0, 0, 0, 0, 0, 0, 0, 0, 0, 0, 0, 0, 7,
    ];

    fn seen(cfg: &Config, words: &[u64]) -> Option<Seen> {
        if words.len() == cfg.node_size() as usize {
            Some(read_image(cfg, words))
        } else {
            None
        }
    }

    // What is seen where two of the words are others.
    fn seen_with(
        cfg: &Config,
        node: [u64; 23],
        at: usize,
        word: u64,
        and_at: usize,
        and_word: u64,
    ) -> Option<Seen> {
        let mut words = node;
        if at < 23 && and_at < 23 {
            words[at] = word;
            words[and_at] = and_word;
        }
        seen(cfg, &words)
    }

    // Whether words with two others are odd.
    fn is_odd(
        cfg: &Config,
        node: [u64; 23],
        at: usize,
        word: u64,
        and_at: usize,
        and_word: u64,
    ) -> bool {
        match seen_with(cfg, node, at, word, and_at, and_word) {
            Some(Seen::Odd) => true,
            _ => false,
        }
    }

    #[test]
    fn a_leaf_is_read_from_its_words(rt: HostRuntime) {
        let Ok(cfg) = setting(4, 1) else {
            assert!(rt; false, "no setting");
            return;
        };
        let Some(Seen::Leaf(image)) = seen(&cfg, &LEAF) else {
            assert!(rt; false, "no leaf");
            return;
        };
        assert_eq!(rt; image.version(), 7);
        assert_eq!(rt; image.low(), 10);
        assert_eq!(rt; image.high(), 20);
        assert_eq!(rt; image.next(), 2);
        assert!(rt; image.keys() == [0, 10, 19, 0].as_slice());
        assert!(rt;
            image.entries() == 4
                && image.entry(2).version == 3
                && image.entry(2).value.words() == [501].as_slice()
        );
    }

    #[test]
    fn an_inner_node_is_read_from_its_words(rt: HostRuntime) {
        let Ok(cfg) = setting(4, 1) else {
            assert!(rt; false, "no setting");
            return;
        };
        let Some(Seen::Inner(image)) = seen(&cfg, &INNER) else {
            assert!(rt; false, "no inner node");
            return;
        };
        assert_eq!(rt; image.version(), 7);
        assert_eq!(rt; image.level(), 1);
        assert_eq!(rt; image.low(), 10);
        assert_eq!(rt; image.high(), 20);
        assert_eq!(rt; image.next(), 2);
        assert!(rt;
            image.pairs() == 2
                && image.pair(0).separator == 10
                && image.pair(0).child == 1
                && image.pair(1).separator == 15
                && image.pair(1).child == 2
        );
    }

    // Each row is a rule, and one or two words that break it.
    #[test]
    fn a_leaf_that_breaks_a_rule_is_odd(rt: HostRuntime) {
        let Ok(cfg) = setting(4, 1) else {
            assert!(rt; false, "no setting");
            return;
        };
        for (rule, at, word, and_at, and_word) in [
            ("node version", 0, 16, 22, 16),
            ("level", 1, 1, 1, 1),
            ("fences that meet", 3, 10, 3, 10),
            ("fences the wrong way round", 2, 21, 2, 21),
            ("next above nodes", 4, 3, 4, 3),
            ("no next, and no last leaf", 4, 0, 4, 0),
            ("the last leaf, and a next", 3, u64::MAX, 3, u64::MAX),
            ("count", 5, 1, 5, 1),
            ("entry version", 10, 16, 13, 16),
            ("version of an empty entry", 6, 16, 9, 16),
            ("value of an empty entry", 8, 1, 8, 1),
            ("key below the low fence", 11, 9, 11, 9),
            ("key at the high fence", 15, 20, 15, 20),
        ] {
            assert!(rt; is_odd(&cfg, LEAF, at, word, and_at, and_word), "{rule}");
        }
    }

    #[test]
    fn an_inner_node_that_breaks_a_rule_is_odd(rt: HostRuntime) {
        let Ok(cfg) = setting(4, 1) else {
            assert!(rt; false, "no setting");
            return;
        };
        for (rule, at, word, and_at, and_word) in [
            ("node version", 0, 16, 22, 16),
            ("level", 1, 2, 1, 2),
            ("fences that meet", 3, 10, 3, 10),
            ("next above nodes", 4, 3, 4, 3),
            ("no next, and no last node", 4, 0, 4, 0),
            ("the last node, and a next", 3, u64::MAX, 3, u64::MAX),
            ("no pair", 5, 0, 5, 0),
            ("a pair that isn't there", 5, 3, 5, 3),
            ("too many pairs", 5, 9, 5, 9),
            ("first separator above the low fence", 6, 11, 6, 11),
            ("low fence below the first separator", 2, 9, 2, 9),
            ("separators that stand still", 8, 10, 8, 10),
            ("separator at the high fence", 8, 20, 8, 20),
            ("no child", 7, 0, 7, 0),
            ("child above nodes", 9, 3, 9, 3),
            ("a word behind the pairs", 10, 1, 10, 1),
            ("a word before the rear version", 21, 1, 21, 1),
        ] {
            assert!(rt; is_odd(&cfg, INNER, at, word, and_at, and_word), "{rule}");
        }
    }

    // The end of a chain, the ends of the fences, the last versions, and a key that stands twice.
    #[test]
    fn what_just_meets_the_rules_is_no_odd(rt: HostRuntime) {
        let Ok(cfg) = setting(4, 1) else {
            assert!(rt; false, "no setting");
            return;
        };
        for (at, word, and_at, and_word) in [
            (3, u64::MAX, 4, 0),
            (4, 1, 2, 9),
            (0, 15, 22, 15),
            (15, 10, 15, 10),
            (6, 15, 9, 15),
        ] {
            assert!(rt; !is_odd(&cfg, LEAF, at, word, and_at, and_word));
        }
        for (at, word, and_at, and_word) in [
            (3, u64::MAX, 4, 0),
            (0, 15, 22, 15),
            (8, 11, 9, 1),
            (8, 19, 8, 19),
        ] {
            assert!(rt; !is_odd(&cfg, INNER, at, word, and_at, and_word));
        }
    }

    #[test]
    fn a_torn_node_is_told_before_all_else(rt: HostRuntime) {
        let Ok(cfg) = setting(4, 1) else {
            assert!(rt; false, "no setting");
            return;
        };
        for (node, at, word, and_at, and_word, torn) in [
            (LEAF, 22, 6, 22, 6, (6, 7)),
            (LEAF, 0, 8, 0, 8, (7, 8)),
            (LEAF, 22, 6, 13, 14, (6, 7)),
            (LEAF, 22, 6, 5, 1, (6, 7)),
            (INNER, 22, 8, 22, 8, (8, 7)),
        ] {
            assert!(rt;
                match seen_with(&cfg, node, at, word, and_at, and_word) {
                    Some(Seen::Torn { rear, front }) => rear == torn.0 && front == torn.1,
                    _ => false
                }
            );
        }
    }

    #[test]
    fn the_first_torn_entry_is_told(rt: HostRuntime) {
        let Ok(cfg) = setting(4, 1) else {
            assert!(rt; false, "no setting");
            return;
        };
        for (at, word, and_at, and_word, torn) in [
            (6, 1, 6, 1, (0, 0, 1)),
            (13, 14, 13, 14, (1, 14, 15)),
            (21, 9, 21, 9, (3, 9, 0)),
            (17, 4, 13, 14, (1, 14, 15)),
            (21, 9, 14, 4, (2, 3, 4)),
            (13, 14, 5, 1, (1, 14, 15)),
        ] {
            assert!(rt;
                match seen_with(&cfg, LEAF, at, word, and_at, and_word) {
                    Some(Seen::TornEntry { index, rear, front }) => index == torn.0
                        && rear == torn.1
                        && front == torn.2,
                    _ => false
                }
            );
        }
    }

    // A leaf's words, in their order: a last leaf of so many entries, each with a key and so many words of value.
    fn leaf_of(alloc: Global, entries: u32, value_words: u32) -> Result<Vec<u64>, AllocError> {
        let mut words = Vec::new(alloc);
        for word in [7, 0, 100, u64::MAX, 0, 0] {
            words.push(word)?;
        }
        for index in 0..entries {
            let version = u64::from(index % 16);
            words.push(version)?;
            words.push(100 + u64::from(index))?;
            for place in 0..value_words {
                words.push(1000 + u64::from(index) + u64::from(place))?;
            }
            words.push(version)?;
        }
        words.push(7)?;
        Ok(words)
    }

    // An inner node's words, in their order: a last node of so many pairs, and so many words behind them.
    fn inner_of(alloc: Global, pairs: u32, behind: u32) -> Result<Vec<u64>, AllocError> {
        let mut words = Vec::new(alloc);
        for word in [7, 1, 0, u64::MAX, 0, u64::from(pairs)] {
            words.push(word)?;
        }
        for index in 0..pairs {
            words.push(10 * u64::from(index))?;
            words.push(1 + u64::from(index % 2))?;
        }
        for _ in 0..behind {
            words.push(0)?;
        }
        words.push(7)?;
        Ok(words)
    }

    // Whether the words are written again from the node that is read from them.
    #[tactic(auto, using(crate::proofs::LeafLemmas::values_of))]
    fn is_written_back(alloc: Global, cfg: &Config, words: &[u64]) -> Result<bool, AllocError> {
        let size = cfg.node_size() as usize;
        if words.len() != size {
            return Ok(false);
        }
        let mut out = vec![in alloc; 1; size]?;
        match read_image(cfg, words) {
            Seen::Leaf(image) => write_leaf(cfg, &image, &mut out),
            Seen::Inner(image) => write_inner(cfg, &image, &mut out),
            _ => return Ok(false),
        }
        Ok(out.as_slice() == words)
    }

    // The last entry's key and version, and the last word of its value.
    fn has_last(cfg: &Config, words: &[u64], key: u64, version: u64, word: u64) -> bool {
        let Some(Seen::Leaf(image)) = seen(cfg, words) else {
            return false;
        };
        if image.entries() == 0 {
            return false;
        }
        let last = image.entry(image.entries() - 1);
        last.key == key
            && last.version == version
            && last.value.words()[last.value.len() - 1] == word
    }

    // The smallest and the largest leaves, with values of 1, 2 and 8 words.
    #[test]
    fn leaves_of_any_setting_are_written_back(rt: HostRuntime) -> Result<(), AllocError> {
        for (entries, value_words, last) in [
            (4, 1, (103, 3, 1003)),
            (4, 2, (103, 3, 1004)),
            (4, 8, (103, 3, 1010)),
            (64, 1, (163, 15, 1063)),
            (64, 2, (163, 15, 1064)),
            (64, 8, (163, 15, 1070)),
        ] {
            let Ok(cfg) = setting(entries, value_words) else {
                assert!(rt; false, "no setting");
                return Ok(());
            };
            let words = leaf_of(rt.alloc(), entries, value_words)?;
            assert!(rt; has_last(&cfg, words.as_slice(), last.0, last.1, last.2));
            assert!(rt; is_written_back(rt.alloc(), &cfg, words.as_slice())?);
        }
        Ok(())
    }

    // A node of one pair, and one without room; a node has 7 words and K entries of three and a value's words.
    #[test]
    fn inner_nodes_of_any_setting_are_written_back(rt: HostRuntime) -> Result<(), AllocError> {
        for (leaf, value_words, pairs, behind) in [
            (4, 1, 1, 14),
            (4, 1, 8, 0),
            (4, 8, 8, 28),
            (64, 1, 1, 254),
            (64, 1, 128, 0),
            (64, 2, 128, 64),
            (64, 8, 128, 448),
        ] {
            let Ok(cfg) = setting(leaf, value_words) else {
                assert!(rt; false, "no setting");
                return Ok(());
            };
            let words = inner_of(rt.alloc(), pairs, behind)?;
            assert!(rt; is_written_back(rt.alloc(), &cfg, words.as_slice())?);
        }
        Ok(())
    }

    #[test]
    fn the_words_of_the_small_nodes_are_written_back(rt: HostRuntime) -> Result<(), AllocError> {
        let Ok(cfg) = setting(4, 1) else {
            assert!(rt; false, "no setting");
            return Ok(());
        };
        assert!(rt; is_written_back(rt.alloc(), &cfg, &LEAF)?);
        assert!(rt; is_written_back(rt.alloc(), &cfg, &INNER)?);
        Ok(())
    }

    #[test]
    fn an_entry_is_written_with_both_versions(rt: HostRuntime) {
        let mut out = [0; 5];
        write_entry(4, 11, Value::of(&[500, 501]), &mut out);
        assert_eq!(rt; out, [4, 11, 500, 501, 4]);
    }

    // What is read into an image, and none of words that aren't as many as a node's.
    fn found(cfg: &Config, words: &[u64], image: &mut Image) -> Option<Found> {
        if words.len() == cfg.node_size() as usize {
            Some(read_into(cfg, words, image))
        } else {
            None
        }
    }

    // The level, the number of entries or pairs, and the key or the separator at an index.
    fn shape(image: &Image, index: u32) -> (u64, u32, u64) {
        match image {
            Image::Leaf(leaf) => (0, leaf.entries(), key_at(leaf, index)),
            Image::Inner(inner) => (inner.level(), inner.pairs(), separator_at(inner, index)),
        }
    }

    fn key_at(leaf: &LeafImage, index: u32) -> u64 {
        if index < leaf.entries() {
            leaf.entry(index).key
        } else {
            u64::MAX
        }
    }

    fn separator_at(inner: &InnerImage, index: u32) -> u64 {
        if index < inner.pairs() {
            inner.pair(index).separator
        } else {
            u64::MAX
        }
    }

    #[test]
    fn one_image_takes_leaves_and_inner_nodes(rt: HostRuntime) {
        let Ok(cfg) = setting(4, 1) else {
            assert!(rt; false, "no setting");
            return;
        };
        let mut other = LEAF;
        other[7] = 12;
        let mut image = Image::Leaf(LeafImage::new(0, 0, 0, 0, 64, Value::of(&[9])));
        for (node, index, want) in [
            (LEAF, 1, (0, 4, 10)),
            (INNER, 1, (1, 2, 15)),
            (other, 0, (0, 4, 12)),
            (LEAF, 0, (0, 4, 0)),
        ] {
            assert_eq!(rt; found(&cfg, &node, &mut image), Some(Found::Node));
            assert_eq!(rt; shape(&image, index), want);
        }
    }

    // Of an inner node with three pairs that is read before one with two, and after words that are none.
    #[test]
    fn nothing_stays_of_a_longer_inner_node(rt: HostRuntime) {
        let Ok(cfg) = setting(4, 1) else {
            assert!(rt; false, "no setting");
            return;
        };
        let mut longer = INNER;
        longer[5] = 3;
        longer[10] = 17;
        longer[11] = 1;
        let mut odd = longer;
        odd[11] = 3;
        let mut image = Image::Leaf(LeafImage::new(0, 0, 0, 0, 0, Value::of(&[0])));
        for (before, answer) in [(longer, Found::Node), (odd, Found::Odd)] {
            assert_eq!(rt; found(&cfg, &before, &mut image), Some(answer));
            assert_eq!(rt; found(&cfg, &INNER, &mut image), Some(Found::Node));
            assert_eq!(rt; shape(&image, 1), (1, 2, 15));
            assert_eq!(rt; shape(&image, 2), (1, 2, u64::MAX));
        }
    }

    fn fields(inner: &InnerImage) -> (u64, u64, u64, u64, u32, u32) {
        (
            inner.version(),
            inner.level(),
            inner.low(),
            inner.high(),
            inner.next(),
            inner.pairs(),
        )
    }

    // The child at an index, and 0 for none.
    fn child_at(inner: &InnerImage, index: u32) -> u32 {
        if index < inner.pairs() {
            inner.pair(index).child
        } else {
            0
        }
    }

    // Of a node with two pairs, and then of one with one.
    #[test]
    fn a_copy_has_the_pairs_of_the_other_alone(rt: HostRuntime) {
        let mut longer = InnerImage::new(7, 2, 10, 20, 3);
        longer.push(Pair {
            separator: 10,
            child: 4,
        });
        longer.push(Pair {
            separator: 15,
            child: 5,
        });
        let mut shorter = InnerImage::new(8, 1, 30, 40, 6);
        shorter.push(Pair {
            separator: 30,
            child: 9,
        });
        let mut copy = InnerImage::new(0, 0, 0, 0, 0);
        copy.copy_from(&longer);
        assert_eq!(rt; fields(&copy), (7, 2, 10, 20, 3, 2));
        assert_eq!(rt; (separator_at(&copy, 1), child_at(&copy, 1)), (15, 5));
        copy.copy_from(&shorter);
        assert_eq!(rt; fields(&copy), (8, 1, 30, 40, 6, 1));
        assert_eq!(rt; (separator_at(&copy, 0), child_at(&copy, 0)), (30, 9));
        assert_eq!(rt; (separator_at(&copy, 1), child_at(&copy, 1)), (u64::MAX, 0));
    }
}
