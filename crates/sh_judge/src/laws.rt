// What is found, what the headline means for a caller, and the judge over a source and a sink that never fail.
ghost use Rattle.std.specs.Prelude.{◌≡◌, ℕ, List, Option};
ghost use Rattle.sh_map.specs.Book.{IsClosed};
ghost use Rattle.sh_judge.specs.{declared.{finding.Finding.{Finding, TheVariants.{Lawful}}, status.JudgeStatus.{JudgeStatus}}, Complete.{EndsWell, IsFree, IsNoFault}, Finding.{IsFinding, IsFoundIn}, Judged.{JudgeHeadline}};
ghost use Rattle.sh_judge.specs.{Places.{log_of}, Reading.{LinesTold}};

use crate::{JudgeStatus, judge_top};
use sh_port::{SureSink, SureSource};
use std::alloc::Global;

/// The book of a lawful text is closed: each entry of its log is some call's own. Of a text one thing is found. A judge is
/// complete: with accepted words, bytes within the number and no fault of source or sink, the text is judged, or memory is
/// wanting.
pub fn judge_laws()
    ensures closed { (t : LinesTold) (lines calls count : ℕ) → IsFoundIn t lines (Lawful calls count) → IsClosed (log_of t.dones) t.dones }
    ensures findings_are_one { (words : ℕ) (text : List ℕ) (f g : Finding) → IsFinding words text f → IsFinding words text g → f ≡ g }
    ensures complete { (width : Option ℕ) (left rest : Option (List ℕ)) (before now : ℕ) (held after : Option (List ℕ)) (fell fallen : ℕ) (status : JudgeStatus) → JudgeHeadline width left rest before now held after fell fallen status → IsFree width left before now fell fallen → EndsWell status }
{}

/// [`judge_top`] over a source and a sink that never fail: neither `ReadFault` nor `WriteFault` comes.
pub fn judge_sure(
    alloc: Global,
    words: &[&str],
    source: &mut SureSource,
    sink: &mut SureSink,
) -> JudgeStatus
    ensures { IsNoFault result }
{
    judge_top(alloc, words, source, sink)
}
