// Judges finished calls by the maps of their points, in the order of these.
ghost use Rattle.std.specs.Prelude.{IsTrue, false, ◌↔◌, ◌≡◌, ◌⊎◌, ◌<◌, ◌≤◌, ℕ, All, Any, IfOk, length, min, slice_get};
ghost use Rattle.sh_map.specs.{Log.{map_at}, declared.book.Done.{Done}, Judge.{AsksNothing, FitsPart, point_for}, Tables.{AreKept}};

use crate::ranges::do_rows_answer;
use crate::replies::is_answered;
use crate::tree_map::{TreeMap, move_to};
use crate::{Call, Done, Entry};
use std::alloc::{AllocError, Global};

/// What is judged of an answer: all but the rows of a range, or these.
#[derive(Clone, Copy, Debug)]
pub(crate) enum Part {
    Reply,
    Rows,
}

// The place of a finished call, and the point by whose map it is judged.
#[derive(Clone, Copy, Debug)]
struct Due {
    point: u64,
    place: usize,
}

// The point by whose map a part of an answer is judged.
fn point_for(part: Part, done: &Done) -> u64
    ensures { result ≡ point_for part done.now }
{
    match part {
        Part::Reply => done.point,
        Part::Rows => done.first,
    }
}

// Whether anything is asked of a part of an answer: of the rows only at a range.
fn is_asked(part: Part, call: &Call) -> bool
    ensures { result ≡ false → AsksNothing part call.now }
{
    match part {
        Part::Reply => true,
        Part::Rows => match *call {
            Call::Range { .. } => true,
            _ => false,
        },
    }
}

// The finished calls of whose part something is asked, by rising points. What they are judged by comes out the same in
// any order; in this one a log is gone over once.
fn by_points(alloc: Global, part: Part, dones: &[Done]) -> Result<Vec<Due>, AllocError>
    ensures within { IfOk result (λ due. All (λ x. x.place < length dones.now) due.items) }
    ensures each { IfOk result (λ due. (i : ℕ) (d : Done) → slice_get dones.now i ≡ Some d
        → Any (λ x. x.place ≡ i) due.items ⊎ AsksNothing part d.call) }
{
    let mut due = Vec::with_capacity(alloc, dones.len())?;
    for (place, done) in dones.iter().enumerate() {
        if is_asked(part, &done.call) {
            due.push_reserved(Due {
                point: point_for(part, done),
                place,
            });
        }
    }
    due.sort_unstable_by_key(|one| one.point);
    Ok(due)
}

// Whether a part of an answer is right, by the map of its point, where the log has that.
fn is_right(
    alloc: Global,
    part: Part,
    map: &TreeMap,
    log: &[Entry],
    done: &Done,
) -> Result<bool, AllocError>
    requires { point_for part done.now ≤ length log.now → map.now ≡ map_at log.now (point_for part done.now) }
    ensures { IfOk result (λ right. IsTrue right ↔ FitsPart part log.now done.now) }
{
    match part {
        Part::Reply => Ok(is_answered(map, log, done)),
        Part::Rows => do_rows_answer(alloc, map, log, done),
    }
}

/// For each finished call, whether a part of its answer is right.
pub(crate) fn are_right(
    alloc: Global,
    part: Part,
    log: &[Entry],
    dones: &[Done],
) -> Result<Vec<bool>, AllocError>
    ensures { IfOk result (λ kept. AreKept (λ _ d. FitsPart part log.now d) dones.now kept.items) }
{
    let due = by_points(alloc, part, dones)?;
    let mut kept = vec![in alloc; true; dones.len()]?;
    let mut map = TreeMap::new(alloc);
    let mut here = 0;
    for one in &due {
        let done = &dones[one.place];
        let point = point_for(part, done).min(log.len() as u64) as usize;
        move_to(alloc, &mut map, log, here, point)?;
        here = point;
        kept[one.place] = is_right(alloc, part, &map, log, done)?;
    }
    Ok(kept)
}
