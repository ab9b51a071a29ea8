// The matches of the words, and what they read as.
ghost use Rattle.std.specs.{Prelude.{◌≡◌, Bool, map, IfOk, IsErrOf, None, true, option_and_then}, List.{list_all}, Option.{option_map_or}};
ghost use Rattle.clap.specs.Words.{first_value, found_of, one_text};
ghost use Rattle.sh_sheet.specs.Number.{is_number, number_of};
ghost use Rattle.sh_options.specs.{Holds.{Told, flag_text, names_of}, Uses.{is_lawful, told_by}};

use crate::WordFault;
use crate::parsing::parse;
use clap::ArgMatches;
use sh_sheet::parse_number;
use std::alloc::Global;

/// The matches of the words, where each option stands at most once and each value is a number; any other words of a
/// program with these options and flags are `Usage`.
pub fn tell<'a>(
    alloc: Global,
    options: &'a [&'a str],
    flags: &'a [&'a str],
    words: &'a [&'a str],
) -> Result<ArgMatches<'a>, WordFault>
    requires { is_lawful (names_of options.now flags.now) ≡ true }
    ensures told { IfOk result (λ m. Told (names_of options.entry.now flags.entry.now) (map (λ w. w.now) words.entry.now) m) }
    ensures usage { IsErrOf result WordFault.Usage → told_by (names_of options.entry.now flags.entry.now) (map (λ w. w.now) words.entry.now) ≡ None }
{
    let matches = parse(alloc, options, flags, words)?;
    if all_read_numbers(&matches, options) {
        Ok(matches)
    } else {
        Err(WordFault::Usage)
    }
}

// Each option that has a value has a number.
fn all_read_numbers(matches: &ArgMatches, options: &[&str]) -> bool
    ensures { result ≡ list_all (λ name. option_map_or is_number (first_value (found_of matches.now) name) true) (map (λ s. s.now) options.now) }
{
    for name in options {
        if !reads_number(matches, name) {
            return false;
        }
    }
    true
}

fn reads_number(matches: &ArgMatches, name: &str) -> bool
    ensures { result ≡ option_map_or is_number (first_value (found_of matches.now) name.now) true }
{
    match matches.get_str(name) {
        Some(text) => parse_number(text.as_bytes()).is_some(),
        None => true,
    }
}

/// The number that an option is given.
pub fn number(matches: &ArgMatches, name: &str) -> Option<u64>
    ensures { result ≡ option_and_then number_of (first_value (found_of matches.now) name.now) }
{
    match matches.get_str(name) {
        Some(text) => parse_number(text.as_bytes()),
        None => None,
    }
}

/// The flag stands among the words.
pub fn is_used(matches: &ArgMatches, name: &str) -> bool
    ensures { (known used : Bool) → one_text (found_of matches.now) name.now ≡ flag_text known used → result ≡ used }
{
    matches.get_flag(name)
}
