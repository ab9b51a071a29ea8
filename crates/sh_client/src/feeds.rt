// What a client does with what it's fed: READs and locks.
ghost use Rattle.std.specs.Prelude.{◌≡◌, ◌≢◌, ◌≤◌, Some, None};
ghost use Rattle.sh_base.specs.Setting.{IsNode};
ghost use Rattle.sh_image.specs.declared.inner.Image.{Image};
ghost use Rattle.sh_read.specs.Reads.{accepted};
ghost use Rattle.sh_client.specs.declared.state.Phase.TheVariants as phase;
ghost use Rattle.sh_decide.specs.{declared.state.Aim.TheVariants.{Own}, Allowed.{Leads}};
ghost use Rattle.sh_decide.specs.declared.state.Decision.TheVariants as decision;
ghost use Rattle.sh_client.specs.{declared.state.{Then.TheVariants.{Ends}, Write.TheVariants.{Nothing, Entry, Leaf, Inner}}, Bodies.{entry_body, inner_body, leaf_body}};
ghost use Rattle.sh_client.specs.{Machine.{answering, storing, to}, Feeds.{arrived, back, did, fed_in, held_by, turned, went}};
ghost use Rattle.sh_client.specs.Sound.{AllowsIn, CanAddIn, CanChangeIn, CanRewriteIn, IsAim, IsFilled, Stands};

use crate::bodies::{put_entry, put_inner, put_leaf};
use crate::steps::image;
use crate::{Client, Need, Phase, Then, Write};
use sh_decide::{Aim, Decision, Way, decision, node_in, way};
use sh_map::Reply;
use sh_read::Progress;

impl Client {
    // The root word is there.
    pub(crate) fn fed_root(&mut self, aim: Aim, word: u64)
        requires { Stands self.old (phase.Root aim) }
        ensures { self.new ≡ fed_in self.old word (phase.Root aim) }
    {
        match node_in(&self.cfg, word) {
            Some(node) => {
                self.origin = None;
                self.start(node);
                self.to(Phase::Read { aim, top: true });
            }
            None => self.to(Phase::Root { aim }),
        }
    }

    // A word of a READ without a lock is there.
    pub(crate) fn fed_read(&mut self, aim: Aim, top: bool, word: u64)
        requires { Stands self.old (phase.Read aim top) }
        ensures { self.new ≡ fed_in self.old word (phase.Read aim top) }
    {
        match self.load(word) {
            Progress::More => self.to(Phase::Read { aim, top }),
            Progress::Accepted => self.arrive(aim, top),
            Progress::Again { .. } => {
                self.count_again();
                self.to(Phase::Read { aim, top });
            }
            Progress::Odd => self.to(Phase::Root { aim }),
        }
    }

    // The image of a READ without a lock is there.
    #[inline(never)]
    fn arrive(&mut self, aim: Aim, top: bool)
        requires aim { IsAim self.old.setting aim }
        requires image { accepted self.old.setting self.old.registers.reads ≢ None }
        ensures { self.new ≡ arrived self.old aim top (accepted self.old.setting self.old.registers.reads) }
    {
        let node = self.reading.node();
        let way = way(&self.cfg, &self.call, aim, top, node, image(&self.reading));
        self.learn(aim);
        self.go(aim, way);
    }

    // Goes where the image leads.
    fn go(&mut self, aim: Aim, way: Way)
        requires aim { IsAim self.old.setting aim }
        requires image { accepted self.old.setting self.old.registers.reads ≢ None }
        requires leads { Leads self.old.setting way }
        ensures { (image : Image) → accepted self.old.setting self.old.registers.reads ≡ Some image → self.new ≡ went self.old aim image way }
    {
        match way {
            Way::Root => self.to(Phase::Root { aim }),
            Way::Read { node } => {
                self.start(node);
                self.to(Phase::Read { aim, top: false });
            }
            Way::Right { node } => {
                self.count_right();
                self.start(node);
                self.to(Phase::Read { aim, top: false });
            }
            Way::Lock { node } => self.to(Phase::Draw { aim, node }),
            Way::LockRight { node } => {
                self.count_right();
                self.to(Phase::Draw { aim, node });
            }
            Way::Grow => self.grow(aim),
            Way::Found => {
                self.answer();
                self.to(Phase::Ended);
            }
            Way::Rows => self.gather(aim),
        }
    }

    // A ticket is drawn.
    pub(crate) fn fed_draw(&mut self, aim: Aim, node: u32)
        requires { Stands self.old (phase.Draw aim node) }
        ensures { self.new ≡ to self.old (phase.Look aim node) }
    {
        self.lock = self.cfg.lock_of(node);
        self.phase = Phase::Look { aim, node };
    }

    // The lock was handed over.
    pub(crate) fn handed(&mut self, aim: Aim, node: u32, depth: u32)
        requires look { Stands self.old (phase.Look aim node) }
        requires depth { depth ≤ self.old.setting.bound }
        ensures { self.new ≡ turned self.old aim node (Some depth) }
    {
        self.start(node);
        self.to(Phase::ReadLocked { aim, depth });
    }

    // The exchange of the lock word found this.
    pub(crate) fn fed_grab(&mut self, aim: Aim, node: u32, word: u64)
        requires stands { Stands self.old (phase.Grab aim node) }
        requires phase { self.old.phase ≡ phase.Grab aim node }
        ensures { self.new ≡ fed_in self.old word (phase.Grab aim node) }
    {
        if word == 0 {
            self.start(node);
            self.to(Phase::ReadLocked { aim, depth: 0 });
        }
    }

    // A word of a READ under the lock is there.
    pub(crate) fn fed_hold(&mut self, aim: Aim, depth: u32, word: u64)
        requires { Stands self.old (phase.ReadLocked aim depth) }
        ensures { self.new ≡ fed_in self.old word (phase.ReadLocked aim depth) }
    {
        match self.load(word) {
            Progress::More => self.to(Phase::ReadLocked { aim, depth }),
            Progress::Accepted => self.decide(aim, depth),
            Progress::Again { .. } => {
                self.count_again();
                self.to(Phase::ReadLocked { aim, depth });
            }
            Progress::Odd => self.back(depth, Write::Nothing, Then::Starts { aim }),
        }
    }

    // The image of a READ under the lock is there.
    #[inline(never)]
    fn decide(&mut self, aim: Aim, depth: u32)
        requires aim { IsAim self.old.setting aim }
        requires depth { depth ≤ self.old.setting.bound }
        requires image { accepted self.old.setting self.old.registers.reads ≢ None }
        ensures { self.new ≡ held_by self.old aim depth (accepted self.old.setting self.old.registers.reads) }
    {
        let decision = decision(&self.cfg, &self.call, aim, image(&self.reading));
        self.settle(aim);
        self.act(aim, depth, decision);
    }

    // Does what the image leads to.
    fn act(&mut self, aim: Aim, depth: u32, decision: Decision)
        requires aim { IsAim self.old.setting aim }
        requires depth { depth ≤ self.old.setting.bound }
        requires allowed { AllowsIn self.old.setting self.old.registers.call aim (accepted self.old.setting self.old.registers.reads) decision }
        ensures { (image : Image) → accepted self.old.setting self.old.registers.reads ≡ Some image → self.new ≡ did self.old aim depth image decision }
    {
        match decision {
            Decision::Restart => self.back(depth, Write::Nothing, Then::Starts { aim }),
            Decision::Right { node } => {
                self.count_right();
                self.back(depth, Write::Nothing, Then::Takes { aim, node });
            }
            Decision::Absent => {
                self.answer();
                self.back(depth, Write::Nothing, Then::Ends);
            }
            Decision::Entry { index } => self.change_entry(depth, index),
            Decision::Rewrite { index } => self.change_leaf(depth, index),
            Decision::Worn { version } => self.refuse(depth, Reply::Worn { version }),
            Decision::Split => self.seek(Need::ToSplit { aim, depth }),
            Decision::Skip => {
                self.count_worn();
                self.back(depth, Write::Nothing, Then::Ends);
            }
            Decision::Add => self.add(aim, depth),
        }
    }

    // Gives the lock back with this reply, and nothing written.
    pub(crate) fn refuse(&mut self, depth: u32, reply: Reply)
        requires { depth ≤ self.old.setting.bound }
        ensures { self.new ≡ back (answering self.old reply) depth Nothing Ends }
    {
        self.reply = reply;
        self.back(depth, Write::Nothing, Then::Ends);
    }

    // Gives the lock back with the write of an update's entry.
    fn change_entry(&mut self, depth: u32, index: u32)
        requires depth { depth ≤ self.old.setting.bound }
        requires image { CanChangeIn (accepted self.old.setting self.old.registers.reads) index }
        ensures { (image : Image) → accepted self.old.setting self.old.registers.reads ≡ Some image → self.new ≡ did self.old Own depth image (decision.Entry index) }
    {
        self.answer();
        self.store_entry(index);
        self.back(depth, Write::Entry { index }, Then::Ends);
    }

    // Gives the lock back with the write of an update's rewritten leaf.
    fn change_leaf(&mut self, depth: u32, index: u32)
        requires depth { depth ≤ self.old.setting.bound }
        requires image { CanRewriteIn (accepted self.old.setting self.old.registers.reads) index }
        ensures { (image : Image) → accepted self.old.setting self.old.registers.reads ≡ Some image → self.new ≡ did self.old Own depth image (decision.Rewrite index) }
    {
        self.answer();
        self.store_leaf(index);
        self.back(depth, Write::Leaf, Then::Ends);
    }

    // Gives the lock back with the write of a post's node.
    fn add(&mut self, aim: Aim, depth: u32)
        requires depth { depth ≤ self.old.setting.bound }
        requires image { CanAddIn self.old.setting aim (accepted self.old.setting self.old.registers.reads) }
        ensures { (image : Image) → accepted self.old.setting self.old.registers.reads ≡ Some image → self.new ≡ did self.old aim depth image decision.Add }
    {
        self.store_inner(aim);
        self.back(depth, Write::Inner, Then::Ends);
    }

    // The words of an update's entry are ready.
    fn store_entry(&mut self, index: u32)
        requires { CanChangeIn (accepted self.old.setting self.old.registers.reads) index }
        ensures machine { (image : Image) → accepted self.old.setting self.old.registers.reads ≡ Some image → self.new ≡ to (storing self.old (entry_body self.old.setting self.old.registers.call index image)) phase.Idle }
        ensures rest { self.new ≡ to (storing self.old self.new.registers.body) phase.Idle }
        ensures filled { IsFilled self.new.setting (Entry index) self.new.registers.body }
    {
        self.phase = Phase::Idle;
        put_entry(
            &mut self.body,
            &self.cfg,
            &self.call,
            index,
            image(&self.reading),
        );
    }

    // The words of an update's rewritten leaf are ready.
    fn store_leaf(&mut self, index: u32)
        requires { CanRewriteIn (accepted self.old.setting self.old.registers.reads) index }
        ensures machine { (image : Image) → accepted self.old.setting self.old.registers.reads ≡ Some image → self.new ≡ to (storing self.old (leaf_body self.old.setting self.old.registers.call index image)) phase.Idle }
        ensures rest { self.new ≡ to (storing self.old self.new.registers.body) phase.Idle }
        ensures filled { IsFilled self.new.setting Leaf self.new.registers.body }
    {
        self.phase = Phase::Idle;
        put_leaf(
            &mut self.body,
            &self.cfg,
            &self.call,
            index,
            image(&self.reading),
        );
    }

    // The words of a post's node are ready.
    fn store_inner(&mut self, aim: Aim)
        requires { CanAddIn self.old.setting aim (accepted self.old.setting self.old.registers.reads) }
        ensures machine { (image : Image) → accepted self.old.setting self.old.registers.reads ≡ Some image → self.new ≡ to (storing self.old (inner_body self.old.setting aim image)) phase.Idle }
        ensures rest { self.new ≡ to (storing self.old self.new.registers.body) phase.Idle }
        ensures filled { IsFilled self.new.setting Inner self.new.registers.body }
    {
        self.phase = Phase::Idle;
        put_inner(&mut self.body, &self.cfg, aim, image(&self.reading));
    }
}
