// Where an image that was READ without a lock leads.
ghost use Rattle.std.specs.Prelude.{◌≡◌};
ghost use Rattle.sh_base.specs.{Parts.{parts_of}, Setting.{IsNode}};
ghost use Rattle.sh_descend.specs.{Descent.{hop_of, level_of}, declared.Hop.TheVariants.{Right as HopRight, Down as HopDown}};
ghost use Rattle.sh_image.specs.Node.{IsImage};
ghost use Rattle.sh_decide.specs.{declared.state.Aim.TheVariants.{Own}, Aims.{aimed_key, target}, Ways.{found_in, is_below, leads_right, rows_in, way_by, way_here, way_of}, Allowed.{Leads}};

use crate::aims::{aimed_key, is_next, is_node, takes_lock, target};
use crate::{Aim, Way};
use sh_base::Config;
use sh_descend::{Hop, next_hop};
use sh_image::Image;
use sh_map::Call;

/// Where the image of a node that was READ without a lock leads a call that is after this. `top` says that the root word
/// named the node. Where it leads to a node, that is a node of the setting: a number that names none leads to the root
/// word again. Condition: `node` is a node of the setting, and the image keeps the rules of a node.
pub fn way(cfg: &Config, call: &Call, aim: Aim, top: bool, node: u32, image: &Image) -> Way
    requires node { IsNode (parts_of cfg.now) node }
    requires image { IsImage (parts_of cfg.now) image.now }
    ensures exact { result ≡ way_of (parts_of cfg.now) call.now aim top node image.now }
    ensures leads { Leads (parts_of cfg.now) result }
{
    if top && is_below(aim, image) {
        return Way::Grow;
    }
    match hop(cfg, call, aim, image) {
        Hop::Here => way_here(cfg, call, aim, node, image),
        Hop::Right(next) => way_right(cfg, call, aim, image, next),
        Hop::Down(child) => way_down(cfg, call, aim, image, child),
        Hop::Restart => Way::Root,
    }
}

/// Whether the image of a node leads a call that is after this to the right. Condition: the image keeps the rules of a
/// node.
pub fn leads_right(cfg: &Config, call: &Call, aim: Aim, image: &Image) -> bool
    requires { IsImage (parts_of cfg.now) image.now }
    ensures { result ≡ leads_right call.now aim image.now }
{
    match hop(cfg, call, aim, image) {
        Hop::Right(_) => true,
        _ => false,
    }
}

// The hop to the node that the descent is for.
pub(crate) fn hop(cfg: &Config, call: &Call, aim: Aim, image: &Image) -> Hop
    requires { IsImage (parts_of cfg.now) image.now }
    ensures { result ≡ hop_of image.now (aimed_key call.now aim) (target aim) }
{
    let _leaf = cfg.leaf();
    next_hop(image, aimed_key(call, aim), target(aim))
}

// The level of an image.
fn level(image: &Image) -> u64
    ensures { result ≡ level_of image.now }
{
    match image {
        Image::Leaf(_) => 0,
        Image::Inner(inner) => inner.level(),
    }
}

// Whether the image is a level too low for the post.
fn is_below(aim: Aim, image: &Image) -> bool
    ensures { result ≡ is_below aim image.now }
{
    match aim {
        Aim::Own => false,
        Aim::Gathers { .. } => false,
        Aim::Posts { post } => is_next(post.level, level(image)),
    }
}

// The way where the image covers the key.
fn way_here(cfg: &Config, call: &Call, aim: Aim, node: u32, image: &Image) -> Way
    requires { IsNode (parts_of cfg.now) node }
    ensures exact { result ≡ way_here call.now aim node image.now }
    ensures leads { Leads (parts_of cfg.now) result }
{
    match aim {
        Aim::Own => own_here(cfg, call, node, image),
        Aim::Gathers { .. } => rows(cfg, image),
        Aim::Posts { .. } => Way::Lock { node },
    }
}

// The same for the call's own leaf.
fn own_here(cfg: &Config, call: &Call, node: u32, image: &Image) -> Way
    requires { IsNode (parts_of cfg.now) node }
    ensures exact { result ≡ way_here call.now Own node image.now }
    ensures leads { Leads (parts_of cfg.now) result }
{
    match *call {
        Call::Get { .. } => found(cfg, image),
        Call::Put { .. } => Way::Lock { node },
        Call::Del { .. } => Way::Lock { node },
        Call::Range { .. } => Way::Root,
    }
}

// The way of a get in its leaf.
fn found(cfg: &Config, image: &Image) -> Way
    ensures exact { result ≡ found_in image.now }
    ensures leads { Leads (parts_of cfg.now) result }
{
    match image {
        Image::Leaf(_) => Way::Found,
        Image::Inner(_) => Way::Root,
    }
}

// The way of a range in its leaf.
fn rows(cfg: &Config, image: &Image) -> Way
    ensures exact { result ≡ rows_in image.now }
    ensures leads { Leads (parts_of cfg.now) result }
{
    match image {
        Image::Leaf(_) => Way::Rows,
        Image::Inner(_) => Way::Root,
    }
}

// The way to the right.
fn way_right(cfg: &Config, call: &Call, aim: Aim, image: &Image, next: u32) -> Way
    ensures exact { result ≡ way_by (parts_of cfg.now) call.now aim 0 image.now (HopRight next) }
    ensures leads { Leads (parts_of cfg.now) result }
{
    if !is_node(cfg, u64::from(next)) {
        return Way::Root;
    }
    if takes_lock(call, aim) && level(image) == target(aim) {
        Way::LockRight { node: next }
    } else {
        Way::Right { node: next }
    }
}

// The way down.
fn way_down(cfg: &Config, call: &Call, aim: Aim, image: &Image, child: u32) -> Way
    ensures exact { result ≡ way_by (parts_of cfg.now) call.now aim 0 image.now (HopDown child) }
    ensures leads { Leads (parts_of cfg.now) result }
{
    if !is_node(cfg, u64::from(child)) {
        return Way::Root;
    }
    if takes_lock(call, aim) && is_next(level(image), target(aim)) {
        Way::Lock { node: child }
    } else {
        Way::Read { node: child }
    }
}
