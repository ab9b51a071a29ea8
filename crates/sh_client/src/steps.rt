// The parts of a client's steps.
ghost use Rattle.std.specs.Prelude.{◌≡◌, ◌≢◌, ◌≤◌, ◌+◌, ◌<◌, MatchOption, None, Some};
ghost use Rattle.sh_alloc.specs.{Chunks.{IsWantOf, WantsEvent}, Spares.{lowest, with_lowest, without_lowest}, Walks.{walk_fed, walk_wants}};
ghost use Rattle.sh_base.specs.{Layout.{first_node}, Setting.{IsNode}};
ghost use Rattle.sh_image.specs.{Node.{IsImage}, declared.inner.Image.{Image}};
ghost use Rattle.sh_read.specs.Reads.{accepted, progress_of};
ghost use Rattle.sh_client.specs.declared.state.Phase.TheVariants as phase;
ghost use Rattle.sh_client.specs.{Bodies.{answer_in}, Feeds.{back, loaded}};
ghost use Rattle.sh_client.specs.Machine.{again, answering, handed_over, reading, rewrite_done, right_hop, skipped_spent, skipped_worn, sparing, split_done, to};
ghost use Rattle.sh_client.specs.{Sound.{IsBody, IsLoading, IsThen, Leaves, NeedsNoLock, Stands}, Splitting.{chunk_taken, walked, walking}};

use crate::tally::up;
use crate::{Client, Giving, Phase, Then, Write};
use sh_alloc::{ChunkWant, Chunks};
use sh_decide::{answer, call_key};
use sh_image::Image;
use sh_map::{Call, Reply};
use sh_read::{Progress, Reading};

// The image of a READ that was accepted.
#[tactic(auto, using(crate::proofs::ImageLemmas::accepted_lawful))]
pub(crate) fn image(reading: &Reading) -> &Image
    requires { accepted reading.now.setting reading.now.reads ≢ None }
    ensures image { accepted reading.now.setting reading.now.reads ≡ Some result.now }
    ensures lawful { IsImage reading.now.setting result.now }
    ensures node { IsNode reading.now.setting reading.now.reads.node }
{
    reading.within_its_node();
    reading.image()
}

// An image's answer to the call.
fn answer_in(call: &Call, image: &Image) -> Reply
    ensures { result ≡ answer_in call.now image.now }
{
    match image {
        Image::Leaf(leaf) => answer(leaf, call_key(call)),
        Image::Inner(_) => Reply::None,
    }
}

impl Client {
    // Goes to another phase, but none in which it waits for a lock.
    pub(crate) fn to(&mut self, phase: Phase)
        requires stands { Stands self.old phase }
        requires lock { NeedsNoLock phase }
        ensures { self.new ≡ to self.old phase }
    {
        self.phase = phase;
    }

    // Feeds the READ a word.
    pub(crate) fn load(&mut self, word: u64) -> Progress
        requires { IsLoading self.old.setting self.old.registers.reads }
        ensures machine { self.new ≡ to (loaded self.old word) phase.Idle }
        ensures answer { result ≡ progress_of self.old.setting self.old.registers.reads word }
        ensures leaves { Leaves self.new.setting self.new.registers.reads result }
    {
        self.phase = Phase::Idle;
        self.reading.fed(word)
    }

    // Begins a READ of a node.
    #[tactic(auto, using(crate::proofs::ReadLemmas::start_loading))]
    pub(crate) fn start(&mut self, node: u32)
        requires { IsNode self.old.setting node }
        ensures machine { self.new ≡ reading self.old node phase.Idle }
        ensures loading { IsLoading self.new.setting self.new.registers.reads }
    {
        self.phase = Phase::Idle;
        self.reading.start(node);
    }

    // Answers the call by the image that was READ.
    pub(crate) fn answer(&mut self)
        requires { accepted self.old.setting self.old.registers.reads ≢ None }
        ensures machine { (image : Image) → accepted self.old.setting self.old.registers.reads ≡ Some image → self.new ≡ answering self.old (answer_in self.old.registers.call image) }
        ensures rest { self.new ≡ answering self.old self.new.registers.reply }
    {
        self.reply = answer_in(&self.call, image(&self.reading));
    }

    // Begins to give the lock of the node back that was READ.
    pub(crate) fn back(&mut self, depth: u32, write: Write, after: Then)
        requires depth { depth ≤ self.old.setting.bound }
        requires body { IsBody self.old.setting write self.old.registers.body }
        requires after { IsThen self.old.setting after }
        ensures { self.new ≡ back self.old depth write after }
    {
        self.reading.within_its_node();
        let node = self.reading.node();
        let giving = Giving { node, write, after };
        self.to(Phase::Waiting { depth, giving });
    }

    // Begins a walk over the counters.
    pub(crate) fn walk(&mut self)
        ensures machine { self.new ≡ to (walking self.old) phase.Idle }
        ensures wants { WantsEvent (walk_wants self.new.setting self.new.registers.walk) }
    {
        self.phase = Phase::Idle;
        self.chunks = Chunks::new(&self.cfg, self.seat);
    }

    // Feeds the walk a word.
    pub(crate) fn count(&mut self, word: u64) -> ChunkWant
        requires { WantsEvent (walk_wants self.old.setting self.old.registers.walk) }
        ensures machine { self.new ≡ to (walked self.old word) phase.Idle }
        ensures answer { result ≡ walk_wants self.old.setting (walk_fed self.old.setting self.old.registers.walk word) }
        ensures within { IsWantOf self.old.setting result }
    {
        self.phase = Phase::Idle;
        self.chunks.fed(word);
        self.chunks.want()
    }

    // Takes the lowest spare node.
    pub(crate) fn take(&mut self) -> Option<u32>
        ensures node { result ≡ lowest self.old.registers.spare }
        ensures machine { MatchOption result ((self.old.registers.spare.count ≡ 0) × (self.new ≡ to self.old phase.Idle)) (λ n. IsNode self.new.setting n × (n + 1 ≡ self.new.registers.spare.first) × (self.new ≡ to (sparing self.old (without_lowest self.old.registers.spare)) phase.Idle)) }
    {
        self.phase = Phase::Idle;
        self.spare.take()
    }

    // Takes a chunk's nodes in, and its lowest one at once. Condition: no spare node is left.
    pub(crate) fn fill(&mut self, server: u32, chunk: u32) -> u32
        requires none { self.old.registers.spare.count ≡ 0 }
        requires server { server < self.old.setting.servers }
        requires chunk { chunk < self.old.setting.chunks }
        ensures first { result ≡ first_node self.old.setting server chunk }
        ensures machine { self.new ≡ to (chunk_taken self.old server chunk) phase.Idle }
        ensures node { IsNode self.new.setting result }
        ensures last { result + 1 ≡ self.new.registers.spare.first }
    {
        self.phase = Phase::Idle;
        let first = self.cfg.first_node(server, chunk);
        self.spare.fill(first, self.cfg.parts().chunk_nodes);
        let _lowest = self.spare.take();
        first
    }

    // Makes the node that was taken last a spare one again.
    pub(crate) fn put_back(&mut self, node: u32)
        requires node { IsNode self.old.setting node }
        requires last { node + 1 ≡ self.old.registers.spare.first }
        ensures { self.new ≡ to (sparing self.old (with_lowest node self.old.registers.spare)) phase.Idle }
    {
        self.phase = Phase::Idle;
        self.spare.put_back(node);
    }

    // Counts a READ whose words were torn.
    pub(crate) fn count_again(&mut self)
        ensures { self.new ≡ again self.old }
    {
        self.tally.again = up(self.tally.again);
    }

    // Counts a hop to the right.
    pub(crate) fn count_right(&mut self)
        ensures { self.new ≡ right_hop self.old }
    {
        self.tally.rights = up(self.tally.rights);
    }

    // Counts a split.
    pub(crate) fn count_split(&mut self)
        ensures { self.new ≡ split_done self.old }
    {
        self.tally.splits = up(self.tally.splits);
    }

    // Counts a handover.
    pub(crate) fn count_handed(&mut self)
        ensures { self.new ≡ handed_over self.old }
    {
        self.tally.handed = up(self.tally.handed);
    }

    // Counts a post that is skipped since all chunks are spent.
    pub(crate) fn count_spent(&mut self)
        ensures { self.new ≡ skipped_spent self.old }
    {
        self.tally.skipped_spent = up(self.tally.skipped_spent);
    }

    // Counts a post that is skipped since its node is worn.
    pub(crate) fn count_worn(&mut self)
        ensures { self.new ≡ skipped_worn self.old }
    {
        self.tally.skipped_worn = up(self.tally.skipped_worn);
    }

    // Counts a rewritten leaf.
    pub(crate) fn count_rewritten(&mut self)
        ensures { self.new ≡ rewrite_done self.old }
    {
        self.tally.rewritten = up(self.tally.rewritten);
    }
}
