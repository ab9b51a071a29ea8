// The lines of a verdict.
ghost use Rattle.std.specs.Prelude.{◌≡◌, ◌++◌, IfOk, OnOk, codes, string_bytes};
ghost use Rattle.std.specs.Fmt.{decimal};
ghost use Rattle.sh_picture.specs.Text.{lawful_line, place_line};

use crate::FirstPlace;
use std::alloc::{AllocError, Global};
use std::fmt::Write;

// A number, and a comma.
fn push_number(text: &mut String, n: u64) -> Result<(), AllocError>
    ensures { OnOk result (string_bytes text.new ≡ string_bytes text.old ++ (decimal n ++ codes ",")) }
{
    write!(text, "{n},")
}

// A line without numbers.
fn plain_line(alloc: Global, line: &str) -> Result<String, AllocError>
    ensures { IfOk result (λ s. string_bytes s ≡ line.now) }
{
    let mut text = String::new(alloc);
    write!(text, "{line}")?;
    Ok(text)
}

// A line that ends with a number.
fn line_of_one(alloc: Global, front: &str, n: u64) -> Result<String, AllocError>
    ensures { IfOk result (λ s. string_bytes s ≡ front.now ++ (decimal n ++ codes "\n")) }
{
    let mut text = String::new(alloc);
    write!(text, "{front}")?;
    write!(text, "{n}\n")?;
    Ok(text)
}

// A line that ends with two numbers.
fn line_of_two(alloc: Global, front: &str, first: u64, second: u64) -> Result<String, AllocError>
    ensures { IfOk result (λ s. string_bytes s ≡ front.now ++ ((decimal first ++ codes ",") ++ (decimal second ++ codes "\n"))) }
{
    let mut text = String::new(alloc);
    write!(text, "{front}")?;
    push_number(&mut text, first)?;
    write!(text, "{second}\n")?;
    Ok(text)
}

// The line of a place.
pub(crate) fn place_line(alloc: Global, place: &FirstPlace) -> Result<String, AllocError>
    ensures { IfOk result (λ s. string_bytes s ≡ place_line place.now) }
{
    match *place {
        FirstPlace::Short => plain_line(alloc, "refused,short\n"),
        FirstPlace::Magic { at } => line_of_one(alloc, "refused,magic,", at),
        FirstPlace::Setting(_) => plain_line(alloc, "refused,setting\n"),
        FirstPlace::Length { .. } => plain_line(alloc, "refused,length\n"),
        FirstPlace::Zero => plain_line(alloc, "refused,zero\n"),
        FirstPlace::Lock { lock } => line_of_one(alloc, "refused,lock,", u64::from(lock)),
        FirstPlace::Root => plain_line(alloc, "refused,root\n"),
        FirstPlace::Chain { level, node } => {
            line_of_two(alloc, "refused,chain,", level, u64::from(node))
        }
        FirstPlace::Pair { node, index } => {
            line_of_two(alloc, "refused,pair,", u64::from(node), u64::from(index))
        }
        FirstPlace::Twice { node, key } => {
            line_of_two(alloc, "refused,twice,", u64::from(node), key)
        }
    }
}

// The line of a lawful picture.
#[tactic(auto, unfolding(crate::specs::Text::lawful_line))]
pub(crate) fn lawful_line(alloc: Global, keys: u64, total: u128) -> Result<String, AllocError>
    ensures { IfOk result (λ s. string_bytes s ≡ lawful_line keys total) }
{
    let mut text = String::new(alloc);
    write!(text, "lawful,")?;
    push_number(&mut text, keys)?;
    write!(text, "{total}\n")?;
    Ok(text)
}
