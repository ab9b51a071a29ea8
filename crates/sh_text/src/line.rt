// The lines of an answer that are about no one call.
ghost use Rattle.std.specs.{Prelude.{◌≡◌, ◌++◌, IfOk, OnOk, codes, string_bytes}, Fmt.{decimal}};
ghost use Rattle.sh_base.specs.Memory.{at_of};
ghost use Rattle.sh_text.specs.Text.{end_line, event_line, event_text, event_words, made_line, map_line, row_line, unfinished_line};

use crate::push::{push_last, push_number, push_pair, push_word};
use sh_base::Event;
use sh_map::Row;
use std::alloc::{AllocError, Global};
use std::fmt::Write;

/// The line of one of the rows of range `n`, `row,n,key,value` and a line feed.
#[tactic(auto, unfolding(crate::specs::Text::row_line))]
pub fn row_line(alloc: Global, n: u32, row: &Row) -> Result<String, AllocError>
    ensures { IfOk result (λ s. string_bytes s ≡ row_line n row.now) }
{
    let mut text = String::new(alloc);
    write!(text, "row,")?;
    push_number(&mut text, u64::from(n))?;
    push_pair(&mut text, row)?;
    Ok(text)
}

/// The line of a key and its value, `map,key,value` and a line feed.
#[tactic(auto, unfolding(crate::specs::Text::map_line))]
pub fn map_line(alloc: Global, row: &Row) -> Result<String, AllocError>
    ensures { IfOk result (λ s. string_bytes s ≡ map_line row.now) }
{
    let mut text = String::new(alloc);
    write!(text, "map,")?;
    push_pair(&mut text, row)?;
    Ok(text)
}

/// The last line of a run whose calls have all ended, `end,calls,keys,sum` and a line feed.
#[tactic(auto, unfolding(crate::specs::Text::end_line))]
pub fn end_line(alloc: Global, calls: u64, keys: u64, sum: u128) -> Result<String, AllocError>
    ensures { IfOk result (λ s. string_bytes s ≡ end_line calls keys sum) }
{
    let mut text = String::new(alloc);
    write!(text, "end,")?;
    push_number(&mut text, calls)?;
    push_number(&mut text, keys)?;
    write!(text, "{sum}\n")?;
    Ok(text)
}

/// The last line of a run that was given up, `unfinished,calls,done` and a line feed.
#[tactic(auto, unfolding(crate::specs::Text::unfinished_line))]
pub fn unfinished_line(alloc: Global, calls: u64, done: u64) -> Result<String, AllocError>
    ensures { IfOk result (λ s. string_bytes s ≡ unfinished_line calls done) }
{
    let mut text = String::new(alloc);
    write!(text, "unfinished,")?;
    push_number(&mut text, calls)?;
    push_last(&mut text, done)?;
    Ok(text)
}

// An event's word.
fn event_word(event: &Event) -> &'static str
    ensures { result.now ≡ event_text event.now }
{
    match event {
        Event::Load { .. } => "load",
        Event::Store { .. } => "store",
        Event::Exchange { .. } => "exchange",
        Event::Add { .. } => "add",
    }
}

// An event's address.
fn address_of(event: &Event) -> u32
    ensures { result ≡ at_of event.now }
{
    match *event {
        Event::Load { at }
        | Event::Store { at, .. }
        | Event::Exchange { at, .. }
        | Event::Add { at } => at,
    }
}

// The words of an event, and the line's end.
fn push_event_words(text: &mut String, event: &Event, found: u64) -> Result<(), AllocError>
    ensures { OnOk result (string_bytes text.new ≡ string_bytes text.old ++ event_words event.now found) }
{
    match *event {
        Event::Load { .. } | Event::Add { .. } => push_last(text, found),
        Event::Store { word, .. } => push_last(text, word),
        Event::Exchange { old, new, .. } => {
            push_number(text, old)?;
            push_number(text, new)?;
            push_last(text, found)
        }
    }
}

/// The line of a seat's event and the word that it found, and a line feed: `event,seat,load,at,word`,
/// `event,seat,store,at,word`, `event,seat,exchange,at,old,new,found` or `event,seat,add,at,found`.
#[tactic(auto, unfolding(crate::specs::Text::event_line))]
pub fn event_line(alloc: Global, seat: u32, event: &Event, found: u64) -> Result<String, AllocError>
    ensures { IfOk result (λ s. string_bytes s ≡ event_line seat event.now found) }
{
    let mut text = String::new(alloc);
    push_word(&mut text, "event")?;
    push_number(&mut text, u64::from(seat))?;
    push_word(&mut text, event_word(event))?;
    push_number(&mut text, u64::from(address_of(event)))?;
    push_event_words(&mut text, event, found)?;
    Ok(text)
}

/// The line of made calls, `made,n,seed` and a line feed.
#[tactic(auto, unfolding(crate::specs::Text::made_line))]
pub fn made_line(alloc: Global, n: u64, seed: u64) -> Result<String, AllocError>
    ensures { IfOk result (λ s. string_bytes s ≡ made_line n seed) }
{
    let mut text = String::new(alloc);
    write!(text, "made,")?;
    push_number(&mut text, n)?;
    push_last(&mut text, seed)?;
    Ok(text)
}
