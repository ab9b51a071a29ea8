// What an image that was READ under its lock leads to.
ghost use Rattle.std.specs.Prelude.{◌≡◌, ◌≢◌, ◌*◌, ◌<◌, ◌≤◌, length};
ghost use Rattle.sh_base.specs.Parts.{parts_of};
ghost use Rattle.sh_edit.specs.Held.{HasKeysOnce};
ghost use Rattle.sh_image.specs.{Node.{IsImage}, Inner.{IsInner}, Leaf.{IsLeaf}, declared.inner.Image.TheVariants.{Leaf as OfLeaf, Inner as OfInner}};
ghost use Rattle.sh_map.specs.{Calls.{IsInRange}, declared.call.Call.{Call}};
ghost use Rattle.sh_decide.specs.{declared.state.{Aim.{Aim, TheVariants.{Own, Posts}}, Posting.{Posting}}, Aims.{written_key}, Leaves.{index_of}};
ghost use Rattle.sh_decide.specs.{Deciding.{change_at, decided_by, decided_here, decision_of, del_in, has_separator, post_in, put_in, update_in}, Allowed.{Allows}};
ghost use Rattle.sh_descend.specs.declared.Hop.TheVariants.{Right as HopRight};

use crate::aims::is_node;
use crate::leaves::{are_once, index};
use crate::ways::hop;
use crate::{Aim, Decision};
use sh_base::Config;
use sh_descend::Hop;
use sh_image::{Image, InnerImage, LeafImage};
use sh_map::Call;

/// What the image of a node that was READ under its lock leads to, of a call that is after this. The image allows it: an
/// entry that is to be written is there with a version left, and so on. Senseless are a leaf with a key twice, a
/// separator that is there already, a node of another kind, and a hop down or to no node: `Restart`. Condition: the call
/// is in range, and the image keeps the rules of a node.
pub fn decision(cfg: &Config, call: &Call, aim: Aim, image: &Image) -> Decision
    requires call { IsInRange (parts_of cfg.now) call.now }
    requires image { IsImage (parts_of cfg.now) image.now }
    ensures exact { result ≡ decision_of (parts_of cfg.now) call.now aim image.now }
    ensures allows { Allows (parts_of cfg.now) call.now aim image.now result }
{
    match hop(cfg, call, aim, image) {
        Hop::Here => decision_here(cfg, call, aim, image),
        Hop::Right(next) => right(cfg, call, aim, image, next),
        Hop::Down(_) => Decision::Restart,
        Hop::Restart => Decision::Restart,
    }
}

// The lock of the node to the right is to be taken.
fn right(cfg: &Config, call: &Call, aim: Aim, image: &Image, next: u32) -> Decision
    ensures exact { result ≡ decided_by (parts_of cfg.now) call.now aim image.now (HopRight next) }
    ensures allows { Allows (parts_of cfg.now) call.now aim image.now result }
{
    if is_node(cfg, u64::from(next)) {
        Decision::Right { node: next }
    } else {
        Decision::Restart
    }
}

// The image covers the key.
fn decision_here(cfg: &Config, call: &Call, aim: Aim, image: &Image) -> Decision
    requires call { IsInRange (parts_of cfg.now) call.now }
    requires image { IsImage (parts_of cfg.now) image.now }
    ensures exact { result ≡ decided_here (parts_of cfg.now) call.now aim image.now }
    ensures allows { Allows (parts_of cfg.now) call.now aim image.now result }
{
    match image {
        Image::Leaf(leaf) => in_leaf(cfg, call, aim, leaf),
        Image::Inner(inner) => in_inner(cfg, call, aim, inner),
    }
}

// The same for a leaf.
fn in_leaf(cfg: &Config, call: &Call, aim: Aim, leaf: &LeafImage) -> Decision
    requires call { IsInRange (parts_of cfg.now) call.now }
    requires leaf { IsLeaf (parts_of cfg.now) leaf.now }
    ensures exact { result ≡ decided_here (parts_of cfg.now) call.now aim (OfLeaf leaf.now) }
    ensures allows { Allows (parts_of cfg.now) call.now aim (OfLeaf leaf.now) result }
{
    match aim {
        Aim::Gathers { .. } => Decision::Restart,
        Aim::Own => {
            if are_once(leaf) {
                update(cfg, call, leaf)
            } else {
                Decision::Restart
            }
        }
        Aim::Posts { .. } => Decision::Restart,
    }
}

// And for an inner node.
fn in_inner(cfg: &Config, call: &Call, aim: Aim, inner: &InnerImage) -> Decision
    requires { IsInner (parts_of cfg.now) inner.now }
    ensures exact { result ≡ decided_here (parts_of cfg.now) call.now aim (OfInner inner.now) }
    ensures allows { Allows (parts_of cfg.now) call.now aim (OfInner inner.now) result }
{
    match aim {
        Aim::Own => Decision::Restart,
        Aim::Gathers { .. } => Decision::Restart,
        Aim::Posts { post } => {
            if has_separator(inner, post.separator) {
                Decision::Restart
            } else {
                post_decision(cfg, inner)
            }
        }
    }
}

// An update in its leaf.
fn update(cfg: &Config, call: &Call, leaf: &LeafImage) -> Decision
    requires call { IsInRange (parts_of cfg.now) call.now }
    requires leaf { IsLeaf (parts_of cfg.now) leaf.now }
    requires once { HasKeysOnce leaf.now.entries }
    ensures exact { result ≡ update_in (parts_of cfg.now) leaf.now call.now }
    ensures allows { Allows (parts_of cfg.now) call.now Own (OfLeaf leaf.now) result }
{
    match *call {
        Call::Get { .. } => Decision::Restart,
        Call::Put { key, .. } => put(cfg, call, leaf, key),
        Call::Del { key } => del(cfg, leaf, key),
        Call::Range { .. } => Decision::Restart,
    }
}

// A put.
fn put(cfg: &Config, call: &Call, leaf: &LeafImage, key: u64) -> Decision
    requires is_key { 1 ≤ key }
    requires key { written_key call.now ≡ key }
    requires leaf { IsLeaf (parts_of cfg.now) leaf.now }
    requires once { HasKeysOnce leaf.now.entries }
    ensures exact { result ≡ put_in (parts_of cfg.now) leaf.now (index_of leaf.now.entries key) }
    ensures allows { Allows (parts_of cfg.now) call.now Own (OfLeaf leaf.now) result }
{
    if let Some(index) = index(leaf, key) {
        return change(cfg, leaf, index);
    }
    if let Some(index) = index(leaf, 0) {
        return change(cfg, leaf, index);
    }
    let version = leaf.version();
    if version < cfg.last_version() {
        Decision::Split
    } else {
        Decision::Worn { version }
    }
}

// A delete.
fn del(cfg: &Config, leaf: &LeafImage, key: u64) -> Decision
    ensures exact { result ≡ del_in (parts_of cfg.now) leaf.now (index_of leaf.now.entries key) }
    ensures allows { (call : Call) → Allows (parts_of cfg.now) call Own (OfLeaf leaf.now) result }
{
    match index(leaf, key) {
        Some(index) => change(cfg, leaf, index),
        None => Decision::Absent,
    }
}

// The change of one entry.
fn change(cfg: &Config, leaf: &LeafImage, index: u32) -> Decision
    requires { index < length leaf.now.entries }
    ensures exact { result ≡ change_at (parts_of cfg.now) leaf.now index }
    ensures allows { (call : Call) → Allows (parts_of cfg.now) call Own (OfLeaf leaf.now) result }
{
    let version = leaf.version();
    if leaf.entry(index).version < cfg.last_entry_version() {
        Decision::Entry { index }
    } else if version < cfg.last_version() {
        Decision::Rewrite { index }
    } else {
        Decision::Worn { version }
    }
}

// A post in its node.
fn post_decision(cfg: &Config, inner: &InnerImage) -> Decision
    requires { IsInner (parts_of cfg.now) inner.now }
    ensures exact { result ≡ post_in (parts_of cfg.now) inner.now }
    ensures allows { (call : Call) (post : Posting) → Allows (parts_of cfg.now) call (Posts post) (OfInner inner.now) result }
{
    if inner.version() >= cfg.last_version() {
        Decision::Skip
    } else if inner.pairs() < 2 * cfg.leaf() {
        Decision::Add
    } else {
        Decision::Split
    }
}

// Whether a pair has the separator.
fn has_separator(inner: &InnerImage, separator: u64) -> bool
    ensures { result ≡ has_separator inner.now.pairs separator }
{
    for index in 0..inner.pairs() {
        let pair = inner.pair(index);
        if pair.separator == separator {
            return true;
        }
    }
    false
}
