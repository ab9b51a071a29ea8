// The words of a program, as its runtime gives them.
ghost use Rattle.std.specs.{Prelude.{◌≡◌, ◌∷◌, drop, map, string_bytes, IfErr, IfOk, IsErrOf, MatchResult}, IoError.{error_kind}};
ghost use Rattle.sh_options.specs.{Args.{fault_status, word_fault}, declared.order.WordFault.TheVariants.{NoMemory}};

use crate::WordFault;
use sh_sheet::Status;
use std::alloc::Global;
use std::env::Args;
use std::io;
use std::io::ErrorKind;

// Why the runtime gives no words.
fn word_fault(kind: ErrorKind) -> WordFault
    ensures { result ≡ word_fault kind }
{
    match kind {
        ErrorKind::OutOfMemory => WordFault::NoMemory,
        _ => WordFault::Usage,
    }
}

/// The words that the runtime gives a program, its name first. Where one of them is no UTF-8 it gives none, and they are
/// refused like others that no program takes; `NoMemory` is apart.
pub fn words_given(alloc: Global, args: io::Result<Args>) -> Result<Vec<String>, WordFault>
    ensures { MatchResult args (λ _. IfErr result (λ e. e ≡ NoMemory)) (λ error. IsErrOf result (word_fault (error_kind error))) }
{
    let args = match args {
        Ok(args) => args,
        Err(error) => return Err(word_fault(error.kind())),
    };
    match args.collect(alloc) {
        Ok(words) => Ok(words),
        Err(_) => Err(WordFault::NoMemory),
    }
}

// Each word, lent.
fn lent<'a>(alloc: Global, words: &'a [String]) -> Result<Vec<&'a str>, WordFault>
    ensures words { IfOk result (λ v. map (λ w. w.now) v.items ≡ map string_bytes words.entry.now) }
    ensures memory { IfErr result (λ e. e ≡ NoMemory) }
{
    let mut texts = Vec::new(alloc);
    for word in words {
        if texts.push(word.as_str()).is_err() {
            return Err(WordFault::NoMemory);
        }
    }
    Ok(texts)
}

/// The words behind the program's name.
pub fn behind_name<'a>(alloc: Global, words: &'a [String]) -> Result<Vec<&'a str>, WordFault>
    ensures words { IfOk result (λ v. map (λ w. w.now) v.items ≡ drop 1 (map string_bytes words.entry.now)) }
    ensures memory { IfErr result (λ e. e ≡ NoMemory) }
{
    match words.split_first() {
        Some((_, behind)) => lent(alloc, behind),
        None => lent(alloc, words),
    }
}

impl WordFault {
    /// How a program ends with it.
    pub fn status(self) -> Status
        ensures { result ≡ fault_status self }
    {
        match self {
            WordFault::Usage => Status::Usage,
            WordFault::NoMemory => Status::NoMemory,
        }
    }
}
