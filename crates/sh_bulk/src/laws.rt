// What the headline means for a caller.
ghost use Rattle.std.specs.Prelude.{ℕ, List, Option, Some};
ghost use Rattle.sh_bulk.specs.{Complete.{EndsWell, IsFree}, Order.{Asked}, Top.{Headline}, declared.status.BulkStatus.{BulkStatus}};

/// A building is complete: with accepted words, good rows that aren't too many, room for their tree, and no fault of source or
/// sink, the pool is built and written, or memory is wanting.
pub fn buildings_are_complete()
    ensures { (asked : Asked) (left rest : Option (List ℕ)) (before now : ℕ) (held after : Option (List ℕ)) (fell fallen : ℕ) (status : BulkStatus) → Headline (Some asked) left rest before now held after fell fallen status → IsFree asked left before now fell fallen → EndsWell status }
{}
