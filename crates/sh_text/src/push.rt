// Parts of a line, each put at the end of a text.
ghost use Rattle.std.specs.{Prelude.{◌≡◌, ◌++◌, OnOk, codes, string_bytes}, Fmt.{decimal}, List.{flat_map}};
ghost use Rattle.sh_text.specs.Text.{pair_rest, value_text};

use sh_base::Value;
use sh_map::Row;
use std::alloc::AllocError;
use std::fmt::Write;

// A number, and a comma.
pub(crate) fn push_number(text: &mut String, n: u64) -> Result<(), AllocError>
    ensures { OnOk result (string_bytes text.new ≡ string_bytes text.old ++ (decimal n ++ codes ",")) }
{
    write!(text, "{n},")
}

// A number, and the line's end.
pub(crate) fn push_last(text: &mut String, n: u64) -> Result<(), AllocError>
    ensures { OnOk result (string_bytes text.new ≡ string_bytes text.old ++ (decimal n ++ codes "\n")) }
{
    write!(text, "{n}\n")
}

// A word, and a comma.
pub(crate) fn push_word(text: &mut String, word: &str) -> Result<(), AllocError>
    ensures { OnOk result (string_bytes text.new ≡ string_bytes text.old ++ (word.now ++ codes ",")) }
{
    write!(text, "{word},")
}

// Words, each behind a colon.
fn push_more_words(text: &mut String, words: &[u64]) -> Result<(), AllocError>
    ensures { OnOk result (string_bytes text.new ≡ string_bytes text.old ++ flat_map (λ w. codes ":" ++ decimal w) words.now) }
{
    for word in words {
        write!(text, ":{word}")?;
    }
    Ok(())
}

// A value: its words, joined by colons.
pub(crate) fn push_words(text: &mut String, words: &[u64]) -> Result<(), AllocError>
    ensures { OnOk result (string_bytes text.new ≡ string_bytes text.old ++ value_text words.now) }
{
    let Some((first, more)) = words.split_first() else {
        return Ok(());
    };
    write!(text, "{first}")?;
    push_more_words(text, more)
}

// A value, and what ends it.
pub(crate) fn push_value(text: &mut String, value: &Value, end: &str) -> Result<(), AllocError>
    ensures { OnOk result (string_bytes text.new ≡ string_bytes text.old ++ (value_text value.now ++ end.now)) }
{
    push_words(text, value.words())?;
    write!(text, "{end}")
}

// A key, its value, and the line's end.
pub(crate) fn push_pair(text: &mut String, row: &Row) -> Result<(), AllocError>
    ensures { OnOk result (string_bytes text.new ≡ string_bytes text.old ++ pair_rest row.now) }
{
    push_number(text, row.key)?;
    push_value(text, &row.value, "\n")
}
