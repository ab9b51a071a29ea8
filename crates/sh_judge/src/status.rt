// How a judge ended, as a code and as a text.
ghost use Rattle.std.specs.Prelude.{◌≡◌, Some};
ghost use Rattle.sh_judge.specs.Judged.{finding_status, judge_code, judge_text};

use crate::Finding;
use sh_sheet::{Status, StatusText};
use std::fmt;

/// How a judge ended.
#[derive(Clone, Copy, Debug, PartialEq, Eq)]
pub enum JudgeStatus {
    /// As other programs end: `Ok` where the replay is lawful, and else with a cause that isn't about it.
    Served(Status),
    /// The replay isn't lawful; its finding's line tells why.
    NotLawful,
}

impl JudgeStatus {
    /// The code that a program ends with: that of the status, and 14 where the replay isn't lawful.
    pub fn code(&self) -> u8
        ensures { result ≡ judge_code self.now }
    {
        match *self {
            JudgeStatus::Served(status) => status.code(),
            JudgeStatus::NotLawful => 14,
        }
    }

    /// The text that tells it: that of the status, and none where the finding's line tells it.
    pub fn text(&self) -> StatusText
        ensures { result.bytes ≡ judge_text self.now }
    {
        match *self {
            JudgeStatus::Served(status) => status.text(),
            JudgeStatus::NotLawful => StatusText::new(),
        }
    }
}

impl fmt::Display for JudgeStatus {
    ghost output = { λ status. Some (judge_text status) };

    fn fmt<W: fmt::Write>(&self, f: &mut fmt::Formatter<W>) -> fmt::Result {
        f.write_str(self.text().as_str())
    }
}

/// How a judge ends whose finding's line was written whole.
pub(crate) fn ended_by(found: &Finding) -> JudgeStatus
    ensures { result ≡ finding_status found.now }
{
    match *found {
        Finding::Lawful { .. } => JudgeStatus::Served(Status::Ok),
        _ => JudgeStatus::NotLawful,
    }
}
