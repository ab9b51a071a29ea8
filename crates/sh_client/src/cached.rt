// The inner nodes that a client caches: a call begins at one's child, an image is kept, and a stale one is forgotten.
ghost use Rattle.std.specs.{Prelude.{◌≡◌, ◌≢◌, ◌==◌, IfSome, Some, None}, List.{AllByRecursion}};
ghost use Rattle.sh_base.specs.{Parts.{parts_of}, Setting.{IsNode}};
ghost use Rattle.sh_image.specs.{declared.inner.Image.{Image}, Node.{IsImage}, Inner.{IsInner}};
ghost use Rattle.sh_map.specs.Calls.{IsInRange};
ghost use Rattle.sh_read.specs.Reads.{accepted};
ghost use Rattle.sh_client.specs.{declared.state.Phase.TheVariants.{Idle}, Cached.{keeping, learning, origin_of, settling}, Feeds.{at_child, began_at, calling}, Machine.{to}};
ghost use Rattle.sh_decide.specs.Aims.{target};

use crate::steps::image;
use crate::tally::up;
use crate::{Client, Origin, Phase};
use sh_base::Config;
use sh_cache::Cache;
use sh_decide::{Aim, aim_of, is_update, leads_right};
use sh_descend::child;
use sh_image::Image as NodeImage;
use sh_map::Call;

impl Client {
    // Where a call for the key begins by a cached node that covers it.
    pub(crate) fn origin_for(&self, key: u64) -> Option<Origin>
        ensures origin { result ≡ origin_of self.now.registers.cached key }
        ensures node { IfSome result (λ o. IsNode self.now.setting o.child) }
    {
        match self.cache.find(key) {
            Some(row) => Some(Origin {
                low: row.low(),
                child: child(row, key),
            }),
            None => None,
        }
    }

    // It has this call now; a range begins with no rows.
    pub(crate) fn ask(&mut self, call: Call)
        requires idle { self.old.phase ≡ Idle }
        requires in_range { IsInRange self.old.setting call }
        ensures { self.new ≡ calling self.old call }
    {
        if let Call::Range { .. } = call {
            self.rows.clear();
        }
        self.call = call;
    }

    // The call begins at the child of a cached node.
    pub(crate) fn begin_at(&mut self, origin: Origin)
        requires idle { self.old.phase ≡ Idle }
        requires node { IsNode self.old.setting origin.child }
        ensures { self.new ≡ began_at self.old self.old.registers.call (Some origin) }
    {
        self.origin = Some(origin.low);
        self.tally.from_cache = up(self.tally.from_cache);
        let aim = aim_of(&self.call);
        if is_update(&self.call) {
            self.to(Phase::Draw {
                aim,
                node: origin.child,
            });
        } else {
            self.start(origin.child);
            self.to(Phase::Read { aim, top: false });
        }
    }

    // The image of a READ is there: where it's the first one behind a cached node and leads to the right, that node is
    // forgotten.
    #[tactic(auto, using(sh_cache::proofs::RowLemmas::forgotten_all))]
    pub(crate) fn settle(&mut self, aim: Aim)
        requires { accepted self.old.setting self.old.registers.reads ≢ None }
        ensures machine { (image : Image) → accepted self.old.setting self.old.registers.reads ≡ Some image → self.new ≡ to (settling self.old aim image) Idle }
        ensures rest { self.new ≡ to (record self.old { registers = record self.old.registers { cached = self.new.registers.cached; origin = None } }) Idle }
    {
        self.phase = Phase::Idle;
        if let Some(low) = self.origin {
            self.origin = None;
            if leads_right(&self.cfg, &self.call, aim, image(&self.reading)) {
                self.cache.forget(low);
            }
        }
    }

    // The image of a READ without a lock is there: an inner node of level 1 on the way to a leaf is kept, too.
    pub(crate) fn learn(&mut self, aim: Aim)
        requires { accepted self.old.setting self.old.registers.reads ≢ None }
        ensures machine { (image : Image) → accepted self.old.setting self.old.registers.reads ≡ Some image → self.new ≡ to (learning self.old aim image) Idle }
        ensures rest { self.new ≡ to (record self.old { registers = record self.old.registers { cached = self.new.registers.cached; origin = None } }) Idle }
    {
        self.settle(aim);
        keep(&mut self.cache, &self.cfg, aim, image(&self.reading));
    }
}

// Keeps an inner node of level 1 on the way to a leaf.
fn keep(cache: &mut Cache, cfg: &Config, aim: Aim, image: &NodeImage)
    requires { IsImage (parts_of cfg.now) image.now }
    ensures cache { cache.new ≡ record cache.old { rows = keeping cache.old.room aim image.now cache.old.rows } }
    ensures nodes { AllByRecursion (IsInner (parts_of cfg.now)) cache.old.rows → AllByRecursion (IsInner (parts_of cfg.now)) cache.new.rows }
{
    if let NodeImage::Inner(inner) = image {
        if is_leaf_bound(aim) && inner.level() == 1 {
            cache.keep(inner);
        }
    }
}

// Whether a descent is for a leaf.
fn is_leaf_bound(aim: Aim) -> bool
    ensures { result ≡ (target aim == 0) }
{
    match aim {
        Aim::Own => true,
        Aim::Gathers { .. } => true,
        Aim::Posts { post } => post.level == 0,
    }
}
