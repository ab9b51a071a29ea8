// How a client splits a node, and how it puts a new root over the old one.
ghost use Rattle.std.specs.Prelude.{◌≡◌, ◌≢◌, ◌≤◌, ◌+◌, ◌-◌, ◌*◌, ◌^◌, ◌<◌, length, Some, None};
ghost use Rattle.sh_base.specs.{Parts.{parts_of}, Setting.{node_size, nodes, IsNode}};
ghost use Rattle.sh_edit.specs.{Splitting.{IsSplit, left_half, right_half, separator_of}, Pairing.{left_inner, middle_of, right_inner}};
ghost use Rattle.sh_image.specs.{Leaf.{IsLeaf, leaf_words}, Inner.{inner_words, IsInner}, declared.inner.Image.{Image}};
ghost use Rattle.sh_alloc.specs.Spares.{lowest};
ghost use Rattle.sh_decide.specs.{declared.state.Aim.TheVariants.{Own, Posts}, Aims.{written_key, written_value, post_of}};
ghost use Rattle.sh_map.specs.Calls.{IsInRange};
ghost use Rattle.sh_read.specs.Reads.{accepted};
ghost use Rattle.sh_client.specs.declared.state.Phase.TheVariants as phase;
ghost use Rattle.sh_client.specs.{Bodies.{pair_of}, Feeds.{fed_in}, declared.state.{Need.TheVariants.{ToSplit}, Filling.TheVariants.{RightHalf}, Then.TheVariants.{Starts}}, Machine.{to}};
ghost use Rattle.sh_client.specs.{Sound.{HasSplit, IsAim, IsBody, IsFresh, IsNeed, IsPost, Stands}, Splitting.{all_spent, giving_of, root_grown, halved_by, needs, raised, with_fresh}};

use crate::steps::image;
use crate::{Client, Filling, Giving, Need, Phase, Then, Words, Write};
use sh_alloc::ChunkWant;
use sh_base::Config;
use sh_decide::{Aim, Posting, written_key, written_value};
use sh_edit::{new_root, split_inner, split_leaf};
use sh_image::{Image, InnerImage, LeafImage};
use sh_map::{Call, Reply};

impl Client {
    // Takes the lowest spare node and goes on with it, or looks for a chunk where there is none.
    #[inline(never)]
    pub(crate) fn seek(&mut self, need: Need)
        requires { IsNeed self.old.setting self.old.registers.call self.old.registers.reads need }
        ensures { self.new ≡ needs self.old need }
    {
        match self.take() {
            Some(fresh) => self.go_on(fresh, need),
            None => {
                self.walk();
                self.to(Phase::Seek { need });
            }
        }
    }

    // A counter's word is there.
    #[inline(never)]
    pub(crate) fn fed_seek(&mut self, need: Need, word: u64)
        requires { Stands self.old (phase.Seek need) }
        ensures { self.new ≡ fed_in self.old word (phase.Seek need) }
    {
        match self.count(word) {
            ChunkWant::Event(_) => self.to(Phase::Seek { need }),
            ChunkWant::Got { server, chunk } => {
                let fresh = self.fill(server, chunk);
                self.go_on(fresh, need);
            }
            ChunkWant::AllSpent => self.spend(need),
        }
    }

    // Goes on with a fresh node, the last one that was taken of the spare ones.
    fn go_on(&mut self, fresh: u32, need: Need)
        requires need { IsNeed self.old.setting self.old.registers.call self.old.registers.reads need }
        requires node { IsNode self.old.setting fresh }
        requires last { fresh + 1 ≡ self.old.registers.spare.first }
        ensures { self.new ≡ with_fresh self.old fresh need }
    {
        match need {
            Need::ToSplit { aim, depth } => self.halve(aim, depth, fresh),
            Need::ToGrow { posting, root } => self.raise(posting, root, fresh),
        }
    }

    // There is no chunk left: a put is full, and a post is skipped.
    fn spend(&mut self, need: Need)
        requires { IsNeed self.old.setting self.old.registers.call self.old.registers.reads need }
        ensures { self.new ≡ all_spent self.old need }
    {
        match need {
            Need::ToSplit { aim, depth } => self.spend_split(aim, depth),
            Need::ToGrow { .. } => {
                self.count_spent();
                self.to(Phase::Ended);
            }
        }
    }

    // The same for a split.
    fn spend_split(&mut self, aim: Aim, depth: u32)
        requires { depth ≤ self.old.setting.bound }
        ensures { self.new ≡ all_spent self.old (ToSplit aim depth) }
    {
        match aim {
            Aim::Own | Aim::Gathers { .. } => self.refuse(depth, Reply::Full),
            Aim::Posts { .. } => {
                self.count_spent();
                self.back(depth, Write::Nothing, Then::Ends);
            }
        }
    }

    // The halves of the node that was READ are ready.
    fn halve(&mut self, aim: Aim, depth: u32, fresh: u32)
        requires depth { depth ≤ self.old.setting.bound }
        requires fresh { IsNode self.old.setting fresh }
        requires image { HasSplit self.old.setting self.old.registers.call aim (accepted self.old.setting self.old.registers.reads) }
        ensures { self.new ≡ halved_by self.old aim depth fresh (accepted self.old.setting self.old.registers.reads) }
    {
        match aim {
            Aim::Own => self.halve_leaf(depth, fresh),
            Aim::Gathers { .. } => self.back(depth, Write::Nothing, Then::Starts { aim }),
            Aim::Posts { post } => self.halve_inner(post, depth, fresh),
        }
    }

    // The same for a leaf.
    fn halve_leaf(&mut self, depth: u32, fresh: u32)
        requires depth { depth ≤ self.old.setting.bound }
        requires fresh { IsNode self.old.setting fresh }
        requires image { HasSplit self.old.setting self.old.registers.call Own (accepted self.old.setting self.old.registers.reads) }
        ensures { self.new ≡ halved_by self.old Own depth fresh (accepted self.old.setting self.old.registers.reads) }
    {
        self.phase = Phase::Idle;
        self.reply = Reply::None;
        let node = self.reading.node();
        let separator = match image(&self.reading) {
            Image::Leaf(leaf) => put_leaves(
                &mut self.body,
                &mut self.fresh_words,
                &self.cfg,
                &self.call,
                leaf,
                fresh,
            ),
            Image::Inner(_) => 0,
        };
        let post = Posting {
            separator,
            node: fresh,
            level: 1,
        };
        self.fill_right(node, depth, fresh, Write::LeftLeaf, post);
    }

    // And for an inner node.
    fn halve_inner(&mut self, post: Posting, depth: u32, fresh: u32)
        requires depth { depth ≤ self.old.setting.bound }
        requires fresh { IsNode self.old.setting fresh }
        requires image { HasSplit self.old.setting self.old.registers.call (Posts post) (accepted self.old.setting self.old.registers.reads) }
        ensures { self.new ≡ halved_by self.old (Posts post) depth fresh (accepted self.old.setting self.old.registers.reads) }
    {
        self.phase = Phase::Idle;
        let node = self.reading.node();
        let post = match image(&self.reading) {
            Image::Leaf(_) => post,
            Image::Inner(inner) => put_inners(
                &mut self.body,
                &mut self.fresh_words,
                &self.cfg,
                post,
                inner,
                fresh,
            ),
        };
        self.fill_right(node, depth, fresh, Write::LeftInner, post);
    }

    // Begins to store the right half, behind which the lock of the left one is given back, and its post goes up.
    #[tactic(auto, using(sh_base::proofs::LayoutLemmas::node_size_is))]
    fn fill_right(&mut self, node: u32, depth: u32, fresh: u32, write: Write, posting: Posting)
        requires depth { depth ≤ self.old.setting.bound }
        requires node { IsNode self.old.setting node }
        requires filled { IsBody self.old.setting write self.old.registers.body }
        requires fresh { IsFresh self.old.setting fresh self.old.registers.fresh_words }
        requires post { IsPost self.old.setting posting }
        ensures { self.new ≡ to self.old (phase.Fill fresh 0 (RightHalf depth (giving_of node write (Starts (Posts posting))))) }
    {
        let aim = Aim::Posts { post: posting };
        let giving = Giving {
            node,
            write,
            after: Then::Starts { aim },
        };
        self.to(Phase::Fill {
            fresh,
            done: 0,
            filling: Filling::RightHalf { depth, giving },
        });
    }

    // A word of the fresh node is stored.
    pub(crate) fn fed_fill(&mut self, fresh: u32, done: u32, filling: Filling)
        requires { Stands self.old (phase.Fill fresh done filling) }
        ensures { self.new ≡ fed_in self.old 0 (phase.Fill fresh done filling) }
    {
        let size = self.cfg.node_size();
        if done + 1 != size {
            self.to(Phase::Fill {
                fresh,
                done: done + 1,
                filling,
            });
            return;
        }
        match filling {
            Filling::RightHalf { depth, giving } => self.to(Phase::Waiting { depth, giving }),
            Filling::NewRoot { posting, root } => self.to(Phase::Swap {
                posting,
                root,
                fresh,
            }),
        }
    }

    // The root is a level too low for the post.
    #[inline(never)]
    pub(crate) fn grow(&mut self, aim: Aim)
        requires aim { IsAim self.old.setting aim }
        ensures { self.new ≡ root_grown self.old aim self.old.registers.reads.node }
    {
        self.reading.within_its_node();
        let root = self.reading.node();
        match aim {
            Aim::Own => self.to(Phase::Root { aim: Aim::Own }),
            Aim::Gathers { .. } => self.to(Phase::Root { aim }),
            Aim::Posts { post } => self.seek(Need::ToGrow {
                posting: post,
                root,
            }),
        }
    }

    // The words of a new root are ready.
    fn raise(&mut self, posting: Posting, root: u32, fresh: u32)
        requires post { IsPost self.old.setting posting }
        requires node { IsNode self.old.setting fresh }
        requires last { fresh + 1 ≡ self.old.registers.spare.first }
        ensures { self.new ≡ raised self.old posting root fresh }
    {
        self.phase = Phase::Idle;
        let image = new_root(posting.level, root, posting.separator, posting.node);
        self.fresh_words.set_inner(&self.cfg, &image);
        self.to(Phase::Fill {
            fresh,
            done: 0,
            filling: Filling::NewRoot { posting, root },
        });
    }

    // The exchange of the root word found this.
    pub(crate) fn fed_swap(&mut self, posting: Posting, root: u32, fresh: u32, word: u64)
        requires { Stands self.old (phase.Swap posting root fresh) }
        ensures { self.new ≡ fed_in self.old word (phase.Swap posting root fresh) }
    {
        if word == u64::from(root) {
            self.to(Phase::Ended);
        } else {
            self.put_back(fresh);
            let aim = Aim::Posts { post: posting };
            self.to(Phase::Root { aim });
        }
    }
}

// The words of both halves of a leaf without room, and the separator.
#[tactic(auto, using(crate::proofs::ImageLemmas::left_words, crate::proofs::ImageLemmas::left_size, crate::proofs::ImageLemmas::right_words, crate::proofs::ImageLemmas::right_size))]
fn put_leaves(
    body: &mut Words,
    fresh_words: &mut Words,
    cfg: &Config,
    call: &Call,
    leaf: &LeafImage,
    fresh: u32,
) -> u64
    requires call { IsInRange (parts_of cfg.now) call.now }
    requires leaf { IsLeaf (parts_of cfg.now) leaf.now }
    requires split { IsSplit leaf.now (written_key call.now) }
    requires version { leaf.now.version < 2 ^ 64 - 1 }
    ensures separator { result ≡ separator_of leaf.now.entries (written_key call.now) (written_value (parts_of cfg.now) call.now) }
    ensures body { body.new ≡ leaf_words (left_half leaf.now (written_key call.now) (written_value (parts_of cfg.now) call.now) fresh) }
    ensures right { fresh_words.new ≡ leaf_words (right_half leaf.now (written_key call.now) (written_value (parts_of cfg.now) call.now)) }
    ensures size { length body.new ≡ node_size (parts_of cfg.now) }
    ensures right_size { length fresh_words.new ≡ node_size (parts_of cfg.now) }
{
    let halves = split_leaf(leaf, written_key(call), written_value(cfg, call), fresh);
    body.set_leaf(cfg, &halves.left);
    fresh_words.set_leaf(cfg, &halves.right);
    halves.separator
}

// The words of both halves of an inner node without room, and the post of the right one.
fn put_inners(
    body: &mut Words,
    fresh_words: &mut Words,
    cfg: &Config,
    post: Posting,
    inner: &InnerImage,
    fresh: u32,
) -> Posting
    requires inner { IsInner (parts_of cfg.now) inner.now }
    requires full { length inner.now.pairs ≡ 2 * cfg.now.parts.leaf }
    requires version { inner.now.version < 2 ^ 64 - 1 }
    ensures post { result ≡ post_of (middle_of cfg.now.parts.leaf inner.now.pairs (pair_of post)) fresh (inner.now.level + 1) }
    ensures body { body.new ≡ inner_words (parts_of cfg.now) (left_inner cfg.now.parts.leaf inner.now (pair_of post) fresh) }
    ensures right { fresh_words.new ≡ inner_words (parts_of cfg.now) (right_inner cfg.now.parts.leaf inner.now (pair_of post)) }
    ensures size { length body.new ≡ node_size (parts_of cfg.now) }
    ensures right_size { length fresh_words.new ≡ node_size (parts_of cfg.now) }
{
    let halves = split_inner(cfg, inner, post.separator, post.node, fresh);
    body.set_inner(cfg, &halves.left);
    fresh_words.set_inner(cfg, &halves.right);
    Posting {
        separator: halves.separator,
        node: fresh,
        level: inner.level() + 1,
    }
}
