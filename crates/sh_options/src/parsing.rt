// The words, read by clap.
ghost use Rattle.std.specs.Prelude.{◌≡◌, ◌≢◌, true, map, None, IfOk, IsErrOf};
ghost use Rattle.clap.specs.Words.{app_of, kind_of, with_rule};
ghost use Rattle.sh_options.specs.{Command.{app_for, flag_rule, has_end, option_rule}, Holds.{Holds, names_of}, Uses.{is_lawful, told_by}};

use crate::WordFault;
use clap::error::ErrorKind;
use clap::{Arg, ArgAction, ArgMatches, Command, Error};
use std::alloc::{AllocError, Global};

/// The matches of the words, where a program with these options and flags takes them.
pub fn parse<'a>(
    alloc: Global,
    options: &'a [&'a str],
    flags: &'a [&'a str],
    words: &'a [&'a str],
) -> Result<ArgMatches<'a>, WordFault>
    requires { is_lawful (names_of options.now flags.now) ≡ true }
    ensures holds { IfOk result (λ m. Holds (names_of options.entry.now flags.entry.now) (map (λ w. w.now) words.entry.now) m) }
    ensures usage { IsErrOf result WordFault.Usage → told_by (names_of options.entry.now flags.entry.now) (map (λ w. w.now) words.entry.now) ≡ None }
{
    if ends_options(words) {
        return Err(WordFault::Usage);
    }
    let command = command(alloc, options, flags)?;
    match command.try_get_matches_from(words) {
        Ok(matches) => Ok(matches),
        Err(error) => Err(fault_of(&error)),
    }
}

// A word is `--`.
fn ends_options(words: &[&str]) -> bool
    ensures { result ≡ has_end (map (λ w. w.now) words.now) }
{
    for word in words {
        if *word == "--" {
            return true;
        }
    }
    false
}

// Memory, or a wrong use.
fn fault_of(error: &Error) -> WordFault
    ensures { result ≡ WordFault.Usage → kind_of error.now ≢ ErrorKind.OutOfMemory }
{
    match error.kind() {
        ErrorKind::OutOfMemory => WordFault::NoMemory,
        _ => WordFault::Usage,
    }
}

// The command, with no texts of its own.
fn command<'a>(
    alloc: Global,
    options: &'a [&'a str],
    flags: &'a [&'a str],
) -> Result<Command<'a>, AllocError>
    ensures { IfOk result (λ c. app_of c ≡ app_for (names_of options.entry.now flags.entry.now)) }
{
    let mut command = Command::new(alloc, "words")
        .no_binary_name(true)
        .disable_help_flag(true)
        .disable_version_flag(true);
    for name in options {
        command = with_option(alloc, command, name)?;
    }
    for name in flags {
        command = with_flag(alloc, command, name)?;
    }
    Ok(command)
}

fn with_option<'a>(
    alloc: Global,
    command: Command<'a>,
    name: &'a str,
) -> Result<Command<'a>, AllocError>
    ensures { IfOk result (λ c. app_of c ≡ with_rule (app_of command.entry) (option_rule name.entry.now)) }
{
    let option = Arg::new(alloc, name).long(name);
    command.arg(option)
}

fn with_flag<'a>(
    alloc: Global,
    command: Command<'a>,
    name: &'a str,
) -> Result<Command<'a>, AllocError>
    ensures { IfOk result (λ c. app_of c ≡ with_rule (app_of command.entry) (flag_rule name.entry.now)) }
{
    let flag = Arg::new(alloc, name).long(name).action(ArgAction::SetTrue);
    command.arg(flag)
}
