// A new shelf.
ghost use Rattle.std.specs.Prelude.{◌≡◌, ◌≤◌, [], ◌∷◌, drop, replicate, IfOk, IfSome};
ghost use Rattle.left_right.specs.Sides.{view};
ghost use Rattle.sh_base.specs.Parts.{parts_of};
ghost use Rattle.sh_shelf.specs.Held.{Knows};

use crate::book::Front;
use crate::keeper::Keeper;
use crate::looker::Looker;
use crate::rack::Rack;
use crate::rule::{Known, Notes, Puts, Shelved, Shown};
use left_right::reader::Reader;
use left_right::writer::Writer;
use sh_base::Config;
use std::alloc::{AllocError, Global};
use std::collections::VecDeque;
use std::sync::Wait;

/// Cached rows that a compute server shares.
pub struct Shelf;

// A writer whose view is the shelf, with no offers.
fn open<R: Wait>(rt: &R, alloc: Global, room: usize, front: &Front) -> Result<Shown, AllocError>
    requires { front.now.log ≡ [] }
    ensures { IfOk result (λ w. (w.desk.shown.value ≡ record { room = room; rows = []; front = front.now }) × (view w.desk.place ≡ w.desk.shown.value ∷ []) × (drop w.behind w.log.items ≡ [])) }
{
    let first = Rack::new(alloc, room, front.again())?;
    let second = Rack::new(alloc, room, front.again())?;
    let writer = Writer::new(alloc, first, second, 8)?;
    Ok(writer.publish_as::<Puts, R>(rt).0)
}

// A reader that knows which shelf it is of, where there is a place.
fn seat(writer: &mut Shown, room: usize, front: &Front) -> Option<Reader<Rack, Known, Shelved>>
    requires view { view writer.old.desk.place ≡ writer.old.desk.shown.value ∷ [] }
    requires room { writer.old.desk.shown.value.room ≡ room }
    requires front { writer.old.desk.shown.value.front ≡ front.now }
    ensures knows { IfSome result (λ r. Knows room front.now (view r.place)) }
    ensures kept { (writer.new.desk.shown ≡ writer.old.desk.shown) × (writer.new.log ≡ writer.old.log) × (writer.new.behind ≡ writer.old.behind) × (view writer.new.desk.place ≡ view writer.old.desk.place) }
{
    let mut reader = writer.factory().reader().ok()?;
    reader.learn::<Notes>(writer.tell::<Notes>());
    Some(reader)
}

fn looker(
    writer: &mut Shown,
    alloc: Global,
    room: usize,
    front: &Front,
) -> Result<Looker, AllocError>
    requires view { view writer.old.desk.place ≡ writer.old.desk.shown.value ∷ [] }
    requires room { writer.old.desk.shown.value.room ≡ room }
    requires front { writer.old.desk.shown.value.front ≡ front.now }
    requires none { front.now.log ≡ [] }
    ensures looker { IfOk result (λ l. l ≡ record { shelf = front.now.book; room = room; offers = [] }) }
    ensures kept { (writer.new.desk.shown ≡ writer.old.desk.shown) × (writer.new.log ≡ writer.old.log) × (writer.new.behind ≡ writer.old.behind) × (view writer.new.desk.place ≡ view writer.old.desk.place) }
{
    let rows = Vec::with_capacity(alloc, room)?;
    Ok(Looker {
        reader: seat(writer, room, front),
        room,
        rows,
        front: front.again(),
    })
}

fn sit_all(
    writer: &mut Shown,
    alloc: Global,
    room: usize,
    count: u32,
    front: &Front,
) -> Result<Vec<Looker>, AllocError>
    requires view { view writer.old.desk.place ≡ writer.old.desk.shown.value ∷ [] }
    requires room { writer.old.desk.shown.value.room ≡ room }
    requires front { writer.old.desk.shown.value.front ≡ front.now }
    requires none { front.now.log ≡ [] }
    ensures lookers { IfOk result (λ v. v.items ≡ replicate count (record { shelf = front.now.book; room = room; offers = [] })) }
    ensures kept { (writer.new.desk.shown ≡ writer.old.desk.shown) × (writer.new.log ≡ writer.old.log) × (writer.new.behind ≡ writer.old.behind) }
{
    let mut lookers = Vec::with_capacity(alloc, count as usize)?;
    let mut made = 0;
    while made < count {
        lookers.push_reserved(looker(writer, alloc, room, front)?);
        made += 1;
    }
    Ok(lookers)
}

impl Shelf {
    /// A shelf with room for the setting's `cached` rows and no offers, its keeper and so many lookers. Condition: at most 7
    /// lookers.
    pub fn new<R: Wait>(
        rt: &R,
        alloc: Global,
        cfg: &Config,
        lookers: u32,
    ) -> Result<(Keeper, Vec<Looker>), AllocError>
        requires { lookers ≤ 7 }
        ensures keeper { IfOk result (λ p. (p.0.room ≡ (parts_of cfg.now).cached) × (p.0.published ≡ []) × (p.0.pending ≡ [])) }
        ensures lookers { IfOk result (λ p. p.1.items ≡ replicate lookers (record { shelf = p.0.shelf; room = p.0.room; offers = [] })) }
    {
        let room = cfg.parts().cached as usize;
        let (head, front) = Front::open();
        let rising = Vec::with_capacity(alloc, room)?;
        let mut writer = open(rt, alloc, room, &front)?;
        match sit_all(&mut writer, alloc, room, lookers, &front) {
            Ok(list) => {
                let keeper = Keeper {
                    writer,
                    waiting: VecDeque::new(alloc),
                    head,
                    front,
                    rising,
                };
                Ok((keeper, list))
            }
            Err(refused) => {
                writer.take(rt);
                Err(refused)
            }
        }
    }
}
