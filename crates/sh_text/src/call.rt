// The lines of calls.
ghost use Rattle.std.specs.Prelude.{◌≡◌, ◌++◌, IfOk, OnOk, codes, string_bytes};
ghost use Rattle.sh_text.specs.Text.{a_of, b_text, call_front, call_line, call_rest, op_text, pending_line, pending_rest, point_column, point_text, reply_text, reply_value};

use crate::push::{push_number, push_value, push_word, push_words};
use crate::{Finished, Points};
use sh_map::{Call, Reply};
use std::alloc::{AllocError, Global};
use std::fmt::Write;

// A call's word.
fn op_word(call: &Call) -> &'static str
    ensures { result.now ≡ op_text call.now }
{
    match call {
        Call::Get { .. } => "get",
        Call::Put { .. } => "put",
        Call::Del { .. } => "del",
        Call::Range { .. } => "range",
    }
}

// A call's key, or a range's low.
fn a_of(call: &Call) -> u64
    ensures { result ≡ a_of call.now }
{
    match *call {
        Call::Get { key } | Call::Put { key, .. } | Call::Del { key } => key,
        Call::Range { low, .. } => low,
    }
}

// A call's value or high, and a comma.
fn push_b(text: &mut String, call: &Call) -> Result<(), AllocError>
    ensures { OnOk result (string_bytes text.new ≡ string_bytes text.old ++ (b_text call.now ++ codes ",")) }
{
    match call {
        Call::Put { value, .. } => push_value(text, value, ","),
        Call::Range { high, .. } => push_number(text, *high),
        Call::Get { .. } | Call::Del { .. } => write!(text, ","),
    }
}

// A reply's word.
fn reply_word(call: &Call, reply: &Reply) -> &'static str
    ensures { result.now ≡ reply_text call.now reply.now }
{
    match reply {
        Reply::Some(_) => "some",
        Reply::None => "none",
        Reply::Rows { upto } => match call {
            Call::Range { high, .. } if upto < high => "part",
            _ => "rows",
        },
        Reply::Full => "full",
        Reply::Worn { .. } => "worn",
    }
}

// A reply's value.
fn push_reply_value(text: &mut String, reply: &Reply) -> Result<(), AllocError>
    ensures { OnOk result (string_bytes text.new ≡ string_bytes text.old ++ reply_value reply.now) }
{
    match reply {
        Reply::Some(value) => push_words(text, value.words()),
        Reply::Rows { upto } => write!(text, "{upto}"),
        Reply::Worn { version } => write!(text, "{version}"),
        Reply::None | Reply::Full => Ok(()),
    }
}

// A reply's point or points, and the line's end.
fn push_point(text: &mut String, reply: &Reply, first: u64, point: u64) -> Result<(), AllocError>
    ensures { OnOk result (string_bytes text.new ≡ string_bytes text.old ++ (point_text reply.now first point ++ codes "\n")) }
{
    match reply {
        Reply::Some(_) | Reply::None => write!(text, "{point}\n"),
        Reply::Rows { .. } => write!(text, "{first}:{point}\n"),
        Reply::Full | Reply::Worn { .. } => write!(text, "\n"),
    }
}

// The column of points, where it is shown, and the line's end.
fn push_column(
    text: &mut String,
    points: Points,
    reply: &Reply,
    first: u64,
    point: u64,
) -> Result<(), AllocError>
    ensures { OnOk result (string_bytes text.new ≡ string_bytes text.old ++ point_column points reply.now first point) }
{
    match points {
        Points::Shown => {
            write!(text, ",")?;
            push_point(text, reply, first, point)
        }
        Points::Hidden => write!(text, "\n"),
    }
}

// The front of a call's line: its number, its seat, its word, a and b.
fn push_front(text: &mut String, n: u32, seat: u32, call: &Call) -> Result<(), AllocError>
    ensures { OnOk result (string_bytes text.new ≡ string_bytes text.old ++ call_front n seat call.now) }
{
    push_number(text, u64::from(n))?;
    push_number(text, u64::from(seat))?;
    push_word(text, op_word(call))?;
    push_number(text, a_of(call))?;
    push_b(text, call)
}

// The rest of a call's line: its reply.
fn push_rest(text: &mut String, points: Points, call: &Finished) -> Result<(), AllocError>
    ensures { OnOk result (string_bytes text.new ≡ string_bytes text.old ++ call_rest points call.now) }
{
    push_word(text, reply_word(&call.call, &call.reply))?;
    push_reply_value(text, &call.reply)?;
    push_column(text, points, &call.reply, call.first, call.point)
}

// The rest of the line of a call that hasn't ended.
fn push_pending(text: &mut String, points: Points) -> Result<(), AllocError>
    ensures { OnOk result (string_bytes text.new ≡ string_bytes text.old ++ pending_rest points) }
{
    match points {
        Points::Shown => write!(text, "pending,,\n"),
        Points::Hidden => write!(text, "pending,\n"),
    }
}

/// The line of a finished call, `n,seat,op,a,b,reply,value,point` or, without points, `n,seat,op,a,b,reply,value`, and a
/// line feed. The lines of a range's rows aren't part of it.
#[tactic(auto, unfolding(crate::specs::Text::call_line))]
pub fn call_line(alloc: Global, points: Points, call: &Finished) -> Result<String, AllocError>
    ensures { IfOk result (λ s. string_bytes s ≡ call_line points call.now) }
{
    let mut text = String::new(alloc);
    push_front(&mut text, call.n, call.seat, &call.call)?;
    push_rest(&mut text, points, call)?;
    Ok(text)
}

/// The line of a call that hasn't ended, `n,seat,op,a,b,pending,,` or, without points, `n,seat,op,a,b,pending,`, and a
/// line feed.
#[tactic(auto, unfolding(crate::specs::Text::pending_line))]
pub fn pending_line(
    alloc: Global,
    points: Points,
    n: u32,
    seat: u32,
    call: &Call,
) -> Result<String, AllocError>
    ensures { IfOk result (λ s. string_bytes s ≡ pending_line points n seat call.now) }
{
    let mut text = String::new(alloc);
    push_front(&mut text, n, seat, call)?;
    push_pending(&mut text, points)?;
    Ok(text)
}
