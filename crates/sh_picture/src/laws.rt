// What the definitions of pictures mean, and the check over a source and a sink that never fail.
ghost use Rattle.std.specs.Prelude.{◌≡◌, ◌<◌, ◌^◌, ℕ, Bool, List, Option, length, slice_index};
ghost use Rattle.sh_base.specs.{declared.config.ConfigParts.{ConfigParts}, Setting.{pool_words, IsSetting}};
ghost use Rattle.sh_map.specs.declared.book.Row.{Row};
ghost use Rattle.sh_tree.specs.Tree.{IsTree};
ghost use Rattle.sh_picture.specs.{declared.{place.FirstPlace.{FirstPlace}, verdict.Verdict.{Verdict}, ending.PictureStatus.{PictureStatus}}, Top.{EndsWell, Headline, IsFree, IsNoFault}};
ghost use Rattle.sh_picture.specs.{Picture.{parts_spelled, picture_of, words_in}, Fault.{IsFirstPlace, IsIdle}, Verdict.{HasMapOf, IsTreePicture, VerdictOf}};

use crate::{PictureStatus, check_top};
use sh_port::{SureSink, SureSource};
use std::alloc::Global;

/// A picture says its setting and its words. Of a pool at rest that holds a tree the verdict on its picture is lawful,
/// with the pool's setting and the tree's map; so is `check` of what `paint` wrote.
pub fn pictures_of_trees_are_lawful()
    ensures parts { (p : ConfigParts) (words : List ℕ) → IsSetting p → parts_spelled (picture_of p words) ≡ p }
    ensures words { (p : ConfigParts) (words : List ℕ) → IsSetting p → length words ≡ pool_words p → ((i : ℕ) → slice_index words i < 2 ^ 64) → words_in (picture_of p words) ≡ words }
    ensures lawful { (p : ConfigParts) (words : List ℕ) (levels : List (List ℕ)) (verdict : Verdict) → IsSetting p → length words ≡ pool_words p → ((i : ℕ) → slice_index words i < 2 ^ 64) → IsIdle p words → IsTree p words levels → VerdictOf (picture_of p words) verdict → HasMapOf p words levels verdict }
{}

/// Bytes have one verdict: where they are the picture of a lawful tree, no place is the first that says otherwise.
pub fn lawful_pictures_have_no_place()
    ensures { (bytes : List ℕ) (p : ConfigParts) (rows : List Row) (place : FirstPlace) → IsTreePicture bytes p rows → IsFirstPlace bytes place → ⊥ }
{}

/// Bytes have one first place at most.
pub fn places_are_one()
    ensures { (bytes : List ℕ) (a b : FirstPlace) → IsFirstPlace bytes a → IsFirstPlace bytes b → a ≡ b }
{}

/// A check is complete: with accepted words, not too many bytes and no fault of source or sink it ends with a verdict, or
/// for want of memory.
pub fn checks_are_complete()
    ensures { (asked : Option Bool) (left rest : Option (List ℕ)) (before now : ℕ) (held after : Option (List ℕ)) (fell fallen : ℕ) (status : PictureStatus) → Headline asked left rest before now held after fell fallen status → IsFree asked left before now fell fallen → EndsWell status }
{}

/// [`check_top`] over a source and a sink that never fail: neither `ReadFault` nor `WriteFault` comes.
pub fn check_sure(
    alloc: Global,
    words: &[&str],
    source: &mut SureSource,
    sink: &mut SureSink,
) -> PictureStatus
    ensures { IsNoFault result }
{
    check_top(alloc, words, source, sink)
}
