// What is stored of an image: an update's entry, its rewritten leaf, or a post's node.
ghost use Rattle.std.specs.Prelude.{◌≡◌, ◌≤◌, ◌<◌, length};
ghost use Rattle.sh_base.specs.{Parts.{parts_of}, Setting.{entry_size, node_size}};
ghost use Rattle.sh_image.specs.Node.{IsImage};
ghost use Rattle.sh_map.specs.Calls.{IsInRange};
ghost use Rattle.sh_client.specs.Bodies.{entry_body, inner_body, leaf_body};
ghost use Rattle.sh_decide.specs.Allowed.{CanChange, HasEntryAt, HasRoom, HasVersion};

use crate::Words;
use sh_base::Config;
use sh_decide::{Aim, written_key, written_value};
use sh_edit::{add_child, rewrite};
use sh_image::Image;
use sh_map::Call;

// Becomes an update's entry, with a version more.
pub(crate) fn put_entry(words: &mut Words, cfg: &Config, call: &Call, index: u32, image: &Image)
    requires call { IsInRange (parts_of cfg.now) call.now }
    requires entry { CanChange image.now index }
    ensures words { words.new ≡ entry_body (parts_of cfg.now) call.now index image.now }
    ensures size { length words.new ≡ entry_size (parts_of cfg.now) }
{
    match image {
        Image::Leaf(leaf) => {
            let version = leaf.entry(index).version + 1;
            words.set_entry(version, written_key(call), written_value(cfg, call));
        }
        Image::Inner(_) => {}
    }
}

// Becomes an update's leaf, rewritten.
#[tactic(auto, using(crate::proofs::ImageLemmas::rewritten_words, crate::proofs::ImageLemmas::rewritten_count))]
pub(crate) fn put_leaf(words: &mut Words, cfg: &Config, call: &Call, index: u32, image: &Image)
    requires call { IsInRange (parts_of cfg.now) call.now }
    requires image { IsImage (parts_of cfg.now) image.now }
    requires entry { HasEntryAt image.now index }
    requires version { HasVersion image.now }
    ensures words { words.new ≡ leaf_body (parts_of cfg.now) call.now index image.now }
    ensures size { length words.new ≡ node_size (parts_of cfg.now) }
{
    match image {
        Image::Leaf(leaf) => {
            let leaf = rewrite(leaf, index, written_key(call), written_value(cfg, call));
            words.set_leaf(cfg, &leaf);
        }
        Image::Inner(_) => {}
    }
}

// Becomes a post's node, with its pair.
#[tactic(auto, using(crate::proofs::ImageLemmas::one_pair_more))]
pub(crate) fn put_inner(words: &mut Words, cfg: &Config, aim: Aim, image: &Image)
    requires room { HasRoom (parts_of cfg.now) aim image.now }
    requires version { HasVersion image.now }
    ensures words { words.new ≡ inner_body (parts_of cfg.now) aim image.now }
    ensures size { length words.new ≡ node_size (parts_of cfg.now) }
{
    if let Aim::Posts { post } = aim {
        if let Image::Inner(inner) = image {
            if let Some(inner) = add_child(cfg, inner, post.separator, post.node) {
                words.set_inner(cfg, &inner);
            }
        }
    }
}
