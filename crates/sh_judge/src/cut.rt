// Texts cut at a byte, part by part.
ghost use Rattle.std.specs.{Prelude.{◌≡◌, ◌∷◌, ◌==◌, [], MatchOption, option_map}, List.{position}};
ghost use Rattle.sh_judge.specs.Fields.{parts_at, text_parts, one_of, seven_of, three_of, two_of};

/// Where the first byte of this code stands.
pub(crate) fn find(text: &[u8], code: u8) -> Option<usize>
    ensures { result ≡ position (λ b. b == code) text.now }
{
    text.iter().position(|byte| *byte == code)
}

/// The part of a text before its first byte of this code, and what stands behind that byte.
pub(crate) fn cut(text: &[u8], code: u8) -> (&[u8], Option<&[u8]>)
    ensures { parts_at code text.now ≡ result.0.now ∷ text_parts code (option_map (λ b. b.now) result.1) }
{
    match find(text, code) {
        Some(at) => (&text[..at], Some(&text[at + 1..])),
        None => (text, None),
    }
}

/// A part of a text, and what stands behind it.
#[derive(Clone, Copy)]
pub(crate) struct Piece<'a> {
    pub(crate) part: &'a [u8],
    pub(crate) rest: Option<&'a [u8]>,
}

/// The next part.
pub(crate) fn next(rest: Option<&[u8]>, code: u8) -> Option<Piece<'_>>
    ensures { MatchOption result
        (text_parts code (option_map (λ b. b.now) rest.entry) ≡ [])
        (λ p. text_parts code (option_map (λ b. b.now) rest.entry) ≡ p.part.now ∷ text_parts code (option_map (λ b. b.now) p.rest)) }
{
    let text = rest?;
    let (part, rest) = cut(text, code);
    Some(Piece { part, rest })
}

// The one part that is left, if there is one and no more.
fn last(rest: Option<&[u8]>, code: u8) -> Option<&[u8]>
    ensures { option_map (λ b. b.now) result ≡ one_of (text_parts code (option_map (λ b. b.now) rest.entry)) }
{
    let piece = next(rest, code)?;
    match piece.rest {
        None => Some(piece.part),
        Some(_) => None,
    }
}

/// Two fields.
#[derive(Clone, Copy)]
pub(crate) struct TwoFields<'a> {
    pub(crate) first: &'a [u8],
    pub(crate) second: &'a [u8],
}

/// The two parts that are left, if there are two.
pub(crate) fn two(rest: Option<&[u8]>, code: u8) -> Option<TwoFields<'_>>
    ensures { option_map (λ f. record { first = f.first.now; second = f.second.now }) result ≡ two_of (text_parts code (option_map (λ b. b.now) rest.entry)) }
{
    let piece = next(rest, code)?;
    let second = last(piece.rest, code)?;
    Some(TwoFields {
        first: piece.part,
        second,
    })
}

/// Three fields.
#[derive(Clone, Copy)]
pub(crate) struct ThreeFields<'a> {
    pub(crate) first: &'a [u8],
    pub(crate) second: &'a [u8],
    pub(crate) third: &'a [u8],
}

/// The three fields that are left of a line, if there are three.
pub(crate) fn three(rest: Option<&[u8]>) -> Option<ThreeFields<'_>>
    ensures { option_map (λ f. record { first = f.first.now; second = f.second.now; third = f.third.now }) result ≡ three_of (text_parts 44 (option_map (λ b. b.now) rest.entry)) }
{
    let piece = next(rest, b',')?;
    let more = two(piece.rest, b',')?;
    Some(ThreeFields {
        first: piece.part,
        second: more.first,
        third: more.second,
    })
}

/// The fields of a call's line behind its number.
#[derive(Clone, Copy)]
pub(crate) struct SevenFields<'a> {
    pub(crate) seat: &'a [u8],
    pub(crate) op: &'a [u8],
    pub(crate) a: &'a [u8],
    pub(crate) b: &'a [u8],
    pub(crate) reply: &'a [u8],
    pub(crate) value: &'a [u8],
    pub(crate) point: &'a [u8],
}

/// The seven fields that are left of a line, if there are seven.
pub(crate) fn seven(rest: Option<&[u8]>) -> Option<SevenFields<'_>>
    ensures { option_map (λ f. record { seat = f.seat.now; op = f.op.now; a = f.a.now; b = f.b.now; reply = f.reply.now; value = f.value.now; point = f.point.now }) result ≡ seven_of (text_parts 44 (option_map (λ b. b.now) rest.entry)) }
{
    let seat = next(rest, b',')?;
    let op = next(seat.rest, b',')?;
    let a = next(op.rest, b',')?;
    let b = next(a.rest, b',')?;
    let more = three(b.rest)?;
    Some(SevenFields {
        seat: seat.part,
        op: op.part,
        a: a.part,
        b: b.part,
        reply: more.first,
        value: more.second,
        point: more.third,
    })
}
