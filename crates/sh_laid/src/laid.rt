// The words of a laid pool.
ghost use Rattle.std.specs.Prelude.{◌≡◌, IfOk, length, replicate};
ghost use Rattle.sh_base.specs.{Parts.{parts_of}, Setting.{node_size}};
ghost use Rattle.sh_image.specs.Laid.{AreLaid};
ghost use Rattle.sh_laid.specs.Laid.{bare_words};

use crate::node::write_node;
use sh_base::{Config, Value};
use sh_image::{LeafImage, write_leaf};
use std::alloc::{AllocError, Global};

// The number of the first leaf.
const FIRST_LEAF: u32 = 1;

// The words of a laid pool, but for the first leaf's.
fn bare_words(alloc: Global, cfg: &Config) -> Result<Vec<u64>, AllocError>
    ensures { IfOk result (λ v. v.items ≡ bare_words (parts_of cfg.now)) }
{
    let mut words = vec![in alloc; 0; cfg.words() as usize]?;
    words[1] = u64::from(FIRST_LEAF);
    words[cfg.counter_word(0) as usize] = 1;
    Ok(words)
}

// A value of words 0.
fn zero_value(cfg: &Config) -> Value
    ensures { result ≡ replicate (parts_of cfg.now).value_words 0 }
{
    let zeros = [0; 8];
    Value::of(&zeros[..cfg.value_words() as usize])
}

// Writes the empty leaf of all keys to node 1.
fn write_empty_leaf(cfg: &Config, words: &mut [u64], node: &mut [u64])
    requires words { words.old ≡ bare_words (parts_of cfg.now) }
    requires node { length node.old ≡ node_size (parts_of cfg.now) }
    ensures laid { AreLaid (parts_of cfg.now) words.new }
    ensures long { length words.new ≡ length words.old }
{
    let leaf = LeafImage::new(0, 0, u64::MAX, 0, cfg.leaf(), zero_value(cfg));
    write_leaf(cfg, &leaf, node);
    write_node(cfg, words, FIRST_LEAF, node);
}

/// The words of a laid pool: node 1 is the root and the empty leaf of all keys, and one chunk of server 0 is drawn.
pub fn laid_words(alloc: Global, cfg: &Config) -> Result<Vec<u64>, AllocError>
    ensures { IfOk result (λ v. AreLaid (parts_of cfg.now) v.items) }
{
    let mut words = bare_words(alloc, cfg)?;
    let mut node = vec![in alloc; 0; cfg.node_size() as usize]?;
    write_empty_leaf(cfg, &mut words, &mut node);
    Ok(words)
}
