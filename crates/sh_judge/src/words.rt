// The words of the judge.
ghost use Rattle.std.specs.Prelude.{◌≡◌, ◌≤◌, IfOk, IsErrOf, None, Some, map};
ghost use Rattle.sh_judge.specs.Words.{judge_names, width_if, width_of};

use sh_options::{WordFault, number, tell};
use std::alloc::Global;

// The options that take a value.
fn options() -> &'static [&'static str]
    ensures { map (λ s. s.now) result.now ≡ judge_names.options }
{
    &["value-words"]
}

// The options that take none.
fn flags() -> &'static [&'static str]
    ensures { map (λ s. s.now) result.now ≡ judge_names.flags }
{
    &[]
}

// The number, where it is one of words of a value.
fn width_if(n: u64) -> Result<u32, WordFault>
    ensures width { IfOk result (λ w. width_if n ≡ Some w) }
    ensures usage { IsErrOf result WordFault.Usage → width_if n ≡ None }
    ensures low { IfOk result (λ w. 1 ≤ w) }
    ensures high { IfOk result (λ w. w ≤ 8) }
{
    if 1 <= n && n <= 8 {
        Ok(n as u32)
    } else {
        Err(WordFault::Usage)
    }
}

/// How many words a value has. The words behind the program's name are none, or one `--value-words n` or
/// `--value-words=n`, where n is a number from 1 to 8; all others are `Usage`. Without the option it is 1.
pub(crate) fn read_width(alloc: Global, words: &[&str]) -> Result<u32, WordFault>
    ensures width { IfOk result (λ w. width_of (map (λ w. w.now) words.now) ≡ Some w) }
    ensures usage { IsErrOf result WordFault.Usage → width_of (map (λ w. w.now) words.now) ≡ None }
    ensures low { IfOk result (λ w. 1 ≤ w) }
    ensures high { IfOk result (λ w. w ≤ 8) }
{
    let matches = tell(alloc, options(), flags(), words)?;
    width_if(number(&matches, "value-words").unwrap_or(1))
}
