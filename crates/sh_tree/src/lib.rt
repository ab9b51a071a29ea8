//! The tree at rest, over plain memory words: what it is, its map, and its nodes that no node above names.
#![tactic(auto)]

ghost use Rattle.std.specs.Prelude.{◌≡◌, length};
ghost use Rattle.sh_base.specs.declared.config.ConfigParts.{ConfigParts};
ghost use Rattle.sh_image.specs.Leaf.{HaveWords};

mod count;
mod laws;
mod levels;
mod pairs;

pub use count::unposted;
pub use laws::trees_are_one;
pub use pairs::pairs_in;

#[cfg(test)]
mod tests {
    use super::*;
    use sh_base::{Config, ConfigParts, Value};
    use sh_image::{InnerImage, LeafEntry, LeafImage, Pair, write_inner, write_leaf};
    use sh_map::Rows;
    use std::alloc::{AllocError, Global};
    use std::test::Fail;

    // One server of so many chunks of so many nodes, and leaves of four entries with values of one word.
    fn setting(chunks: u32, chunk_nodes: u32) -> Config {
        let parts = ConfigParts {
            servers: 1,
            chunks,
            chunk_nodes,
            leaf: 4,
            computes: 1,
            seats: 3,
            cached: 0,
            ..ConfigParts::default()
        };
        Config::new(parts).unwrap_or_default()
    }

    // The words of a pool with this root; all others are 0.
    fn pool(alloc: Global, cfg: &Config, root: u64) -> Result<Vec<u64>, AllocError> {
        let mut words = vec![in alloc; 0; cfg.words() as usize]?;
        if words.len() > 1 {
            words[1] = root;
        }
        Ok(words)
    }

    // Writes a node's words into the pool, where there is such a node.
    fn put(cfg: &Config, words: &mut [u64], node: u32, from: &[u64]) {
        if node == 0 || node > cfg.nodes() {
            return;
        }
        let at = cfg.node_word(node) as usize;
        if let Some(out) = words.get_mut(at..at + from.len()) {
            out.copy_from_slice(from);
        }
    }

    // An entry of a key; its value is a tenth of the key.
    fn entry(key: u64) -> LeafEntry
        ensures { length result.value ≡ 1 }
    {
        LeafEntry {
            version: 0,
            key,
            value: Value::of(&[key / 10]),
        }
    }

    // A leaf with these keys; 0 is an empty entry.
    fn leaf_of(low: u64, high: u64, next: u32, keys: [u64; 4]) -> LeafImage
        ensures count { length result.entries ≡ 4 }
        ensures values { (p : ConfigParts) → p.value_words ≡ 1 → HaveWords p result.entries }
    {
        let mut leaf = LeafImage::new(0, low, high, next, 4, Value::of(&[0]));
        leaf.set(0, entry(keys[0]));
        leaf.set(1, entry(keys[1]));
        leaf.set(2, entry(keys[2]));
        leaf.set(3, entry(keys[3]));
        leaf
    }

    // Writes a leaf with these keys.
    fn put_leaf(
        cfg: &Config,
        words: &mut [u64],
        node: u32,
        fences: (u64, u64),
        next: u32,
        keys: [u64; 4],
    ) {
        let image = leaf_of(fences.0, fences.1, next, keys);
        let mut out = [0; 23];
        if cfg.leaf() != 4 || cfg.value_words() != 1 || cfg.node_size() != 23 {
            return;
        }
        write_leaf(cfg, &image, &mut out);
        put(cfg, words, node, &out);
    }

    // Writes an inner node with these pairs.
    fn put_inner(
        cfg: &Config,
        words: &mut [u64],
        node: u32,
        level: u64,
        fences: (u64, u64),
        next: u32,
        pairs: &[(u64, u32)],
    ) {
        let mut image = InnerImage::new(0, level, fences.0, fences.1, next);
        for pair in pairs {
            if image.pairs() < 8 {
                image.push(Pair {
                    separator: pair.0,
                    child: pair.1,
                });
            }
        }
        let mut out = [0; 23];
        if image.pairs() > 2 * cfg.leaf() || cfg.node_size() != 23 {
            return;
        }
        write_inner(cfg, &image, &mut out);
        put(cfg, words, node, &out);
    }

    // Whether the rows have these keys, and for a value a tenth of the key.
    fn have_keys(rows: &Rows, keys: &[u64]) -> bool {
        let rows = rows.as_slice();
        if rows.len() != keys.len() {
            return false;
        }
        for index in 0..keys.len() {
            let row = &rows[index];
            if row.key != keys[index] || row.value.words() != [keys[index] / 10].as_slice() {
                return false;
            }
        }
        true
    }

    // Whether the words hold these keys, and have so many unposted nodes.
    fn holds(
        alloc: Global,
        cfg: &Config,
        words: &[u64],
        keys: &[u64],
        count: u32,
    ) -> Result<bool, AllocError> {
        if words.len() != cfg.words() as usize {
            return Ok(false);
        }
        let rows = pairs_in(alloc, cfg, words)?;
        Ok(have_keys(&rows, keys) && unposted(alloc, cfg, words)? == count)
    }

    #[test]
    fn one_leaf_alone(rt: HostRuntime) -> Result<(), Fail> {
        let cfg = setting(4, 8);
        let mut words = pool(rt.alloc(), &cfg, 1)?;
        put_leaf(&cfg, &mut words, 1, (0, u64::MAX), 0, [0, 0, 0, 0]);
        assert!(rt; holds(rt.alloc(), &cfg, &words, &[], 0)?);
        put_leaf(&cfg, &mut words, 1, (0, u64::MAX), 0, [0, 40, 0, 10]);
        assert!(rt; holds(rt.alloc(), &cfg, &words, &[10, 40], 0)?);
        Ok(())
    }

    #[test]
    fn a_split_leaf_under_its_root(rt: HostRuntime) -> Result<(), Fail> {
        let cfg = setting(4, 8);
        let mut words = pool(rt.alloc(), &cfg, 10)?;
        assert_eq!(rt; words.len(), 803);
        put_leaf(&cfg, &mut words, 1, (0, 30), 9, [10, 20, 0, 0]);
        put_leaf(&cfg, &mut words, 9, (30, u64::MAX), 0, [30, 40, 50, 0]);
        put_inner(
            &cfg,
            &mut words,
            10,
            1,
            (0, u64::MAX),
            0,
            &[(0, 1), (30, 9)],
        );
        assert!(rt; holds(rt.alloc(), &cfg, &words, &[10, 20, 30, 40, 50], 0)?);
        Ok(())
    }

    #[test]
    fn a_split_leaf_whose_post_was_skipped(rt: HostRuntime) -> Result<(), Fail> {
        let cfg = setting(2, 1);
        let mut words = pool(rt.alloc(), &cfg, 1)?;
        put_leaf(&cfg, &mut words, 1, (0, 30), 2, [10, 20, 0, 0]);
        put_leaf(&cfg, &mut words, 2, (30, u64::MAX), 0, [30, 40, 50, 0]);
        assert!(rt; holds(rt.alloc(), &cfg, &words, &[10, 20, 30, 40, 50], 1)?);
        Ok(())
    }

    // The leaves are 3, 1, 17, 9 and 4 in the order of their keys, and nobody names 9.
    #[test]
    fn three_levels_with_a_skipped_post(rt: HostRuntime) -> Result<(), Fail> {
        let cfg = setting(4, 8);
        let mut words = pool(rt.alloc(), &cfg, 20)?;
        put_inner(
            &cfg,
            &mut words,
            20,
            2,
            (0, u64::MAX),
            0,
            &[(0, 12), (60, 11)],
        );
        put_inner(&cfg, &mut words, 12, 1, (0, 60), 11, &[(0, 3), (30, 1)]);
        put_inner(
            &cfg,
            &mut words,
            11,
            1,
            (60, u64::MAX),
            0,
            &[(60, 17), (120, 4)],
        );
        put_leaf(&cfg, &mut words, 3, (0, 30), 1, [20, 0, 10, 0]);
        put_leaf(&cfg, &mut words, 1, (30, 60), 17, [0, 50, 40, 30]);
        put_leaf(&cfg, &mut words, 17, (60, 90), 9, [80, 70, 60, 0]);
        put_leaf(&cfg, &mut words, 9, (90, 120), 4, [0, 0, 100, 0]);
        put_leaf(&cfg, &mut words, 4, (120, u64::MAX), 0, [0, 0, 0, 120]);
        let keys = [10, 20, 30, 40, 50, 60, 70, 80, 100, 120];
        assert!(rt; holds(rt.alloc(), &cfg, &words, &keys, 1)?);
        Ok(())
    }
}
