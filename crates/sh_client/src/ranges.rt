// What a range does with a leaf.
ghost use Rattle.std.specs.{Prelude.{◌≡◌, ◌≢◌, ◌≤◌, length, Some, None}, Vec.{vec_capacity}};
ghost use Rattle.sh_base.specs.Parts.{parts_of};
ghost use Rattle.sh_image.specs.declared.inner.Image.{Image};
ghost use Rattle.sh_read.specs.Reads.{accepted};
ghost use Rattle.sh_edit.specs.Ranging.{end_in};
ghost use Rattle.sh_client.specs.{Ranges.{edge_of, gathered, gathering, is_whole, passing, range_ended, rows_taken, rows_with}, Sound.{IsAim}};
ghost use Rattle.sh_decide.specs.{Aims.{end_of}, declared.state.Aim.TheVariants.{Gathers}};

use crate::steps::image;
use crate::{Client, Edge, Phase};
use sh_base::Config;
use sh_decide::{Aim, end_of, node_in};
use sh_edit::{take_rows, upto};
use sh_image::Image as NodeImage;
use sh_map::{Call, Reply, Row};

impl Client {
    // A range takes the rows of the leaf that was READ, and ends or goes on to the right.
    #[inline(never)]
    pub(crate) fn gather(&mut self, aim: Aim)
        requires aim { IsAim self.old.setting aim }
        requires image { accepted self.old.setting self.old.registers.reads ≢ None }
        ensures { (image : Image) → accepted self.old.setting self.old.registers.reads ≡ Some image → self.new ≡ rows_taken self.old aim image }
    {
        match aim {
            Aim::Gathers { place } => {
                let edge = edge(image(&self.reading));
                self.take_leaf(place);
                self.continue_range(aim, edge);
            }
            Aim::Own | Aim::Posts { .. } => self.to(Phase::Root { aim }),
        }
    }

    // Takes the rows of the leaf that was READ.
    fn take_leaf(&mut self, place: u64)
        requires { accepted self.old.setting self.old.registers.reads ≢ None }
        ensures machine { (image : Image) → accepted self.old.setting self.old.registers.reads ≡ Some image → self.new ≡ gathering self.old place image }
        ensures rest { self.new ≡ record self.old { registers = record self.old.registers { rows = self.new.registers.rows } } }
    {
        let image = image(&self.reading);
        take_image(&self.cfg, &self.call, place, image, &mut self.rows);
    }

    // Behind a leaf's rows the range ends, or goes on to the right.
    fn continue_range(&mut self, aim: Aim, edge: Option<Edge>)
        requires { IsAim self.old.setting aim }
        ensures { self.new ≡ gathered self.old aim edge }
    {
        match edge {
            Some(edge) => {
                if is_whole(&self.cfg, end_of(&self.call), edge.high, &self.rows) {
                    self.end_range();
                } else {
                    self.pass(edge);
                }
            }
            None => self.to(Phase::Root { aim }),
        }
    }

    // The range ends.
    fn end_range(&mut self)
        ensures { self.new ≡ range_ended self.old }
    {
        let room = self.cfg.parts().rows as usize;
        let upto = upto(&self.rows, room, end_of(&self.call));
        self.reply = Reply::Rows { upto };
        self.to(Phase::Ended);
    }

    // The range goes on in the leaf to the right.
    fn pass(&mut self, edge: Edge)
        ensures { self.new ≡ passing self.old edge }
    {
        let aim = Aim::Gathers { place: edge.high };
        match node_in(&self.cfg, u64::from(edge.next)) {
            Some(node) => {
                self.start(node);
                self.to(Phase::Read { aim, top: false });
            }
            None => self.to(Phase::Root { aim }),
        }
    }
}

// Where a leaf ends, and none of an inner node.
fn edge(image: &NodeImage) -> Option<Edge>
    ensures { result ≡ edge_of image.now }
{
    match image {
        NodeImage::Leaf(leaf) => Some(Edge {
            high: leaf.high(),
            next: leaf.next(),
        }),
        NodeImage::Inner(_) => None,
    }
}

// The buffer is full, or the leaf reaches to the range's end.
fn is_whole(cfg: &Config, high: u64, leaf_high: u64, rows: &[Row]) -> bool
    ensures { result ≡ is_whole (parts_of cfg.now).rows high leaf_high rows.now }
{
    rows.len() == cfg.parts().rows as usize || leaf_high >= high
}

// Takes the rows of a leaf from a place on.
#[tactic(auto, using(crate::proofs::RowLemmas::still_few))]
fn take_image(cfg: &Config, call: &Call, place: u64, image: &NodeImage, rows: &mut Vec<Row>)
    requires few { length rows.old.items ≤ (parts_of cfg.now).rows }
    requires room { (parts_of cfg.now).rows ≤ vec_capacity rows.old }
    ensures rows { rows.new.items ≡ rows_with (parts_of cfg.now) call.now place image.now rows.old.items }
    ensures few { length rows.new.items ≤ (parts_of cfg.now).rows }
    ensures room { vec_capacity rows.new ≡ vec_capacity rows.old }
{
    if let NodeImage::Leaf(leaf) = image {
        let room = cfg.parts().rows as usize - rows.len();
        take_rows(leaf, place, end_in(leaf.high(), end_of(call)), room, rows);
    }
}

// Where a range up to high ends in a leaf.
fn end_in(leaf_high: u64, high: u64) -> u64
    ensures { result ≡ end_in leaf_high high }
{
    if leaf_high < high { leaf_high } else { high }
}
