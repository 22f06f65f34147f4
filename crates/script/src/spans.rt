// The stretch of the next token, and the number that it may be.
ghost use Rattle.std.specs.Prelude.{◌≡◌, length, IfOk};
ghost use Rattle.script.specs.Spans.{span_at, SpanWithin, whole_at, ahead_at, due_at, listing, numbers_of, overwritten};

use lexing::numerals::{NotNumber, read_numeral};
use lexing::tokens::{token_end, token_start};

// From the start of a token to its end.
#[derive(Clone, Copy, Debug, PartialEq, Eq)]
pub struct Span {
    pub start: usize,
    pub end: usize,
}

// What a script with a fault should have had.
#[derive(Clone, Copy, Debug, PartialEq, Eq)]
pub enum Expected {
    Statement,
    Number,
    Name,
    // The end of the script: it is longer than what is read of it.
    End,
    // Fewer numbers: there is no room for another.
    Fewer,
}

// Where a fault stands, and what was expected there.
#[derive(Clone, Copy, Debug, PartialEq, Eq)]
pub struct Fault {
    pub span: Span,
    pub expected: Expected,
}

// What comes next where a number may stand.
#[derive(Clone, Copy, Debug, PartialEq, Eq)]
pub enum Ahead {
    Number(u16, Span),
    Other(Span),
}

// The next token.
#[tactic(auto, using(crate::proofs::Stretches::span_within))]
pub fn next_span(text: &[u8], at: usize) -> Span
    ensures value { result ≡ span_at text.now at }
    ensures within { SpanWithin text.now result }
{
    let start = token_start(text, at);
    Span {
        start,
        end: token_end(text, start),
    }
}

// The next token, which must not go on behind a cut.
pub(crate) fn whole_span(text: &[u8], cut: bool, at: usize) -> Result<Span, Fault>
    ensures value { result ≡ whole_at text.now cut at }
    ensures within { IfOk result (SpanWithin text.now) }
{
    let span = next_span(text, at);
    if cut && text.len() <= span.end {
        return Err(Fault {
            span,
            expected: Expected::End,
        });
    }
    Ok(span)
}

// The next token where a number may stand.
#[tactic(auto, unfolding(crate::specs::Spans::ahead_at))]
pub fn next_number(text: &[u8], cut: bool, at: usize) -> Result<Ahead, Fault>
    ensures { result ≡ ahead_at text.now cut at }
{
    let span = whole_span(text, cut, at)?;
    if text.len() <= span.start {
        return Ok(Ahead::Other(span));
    }
    match read_numeral(&text[span.start..span.end]) {
        Ok(value) => Ok(Ahead::Number(value, span)),
        Err(NotNumber::TooLarge) => Err(Fault {
            span,
            expected: Expected::Number,
        }),
        Err(NotNumber::Word) => Ok(Ahead::Other(span)),
    }
}

// The next token, which must be a number: the number, and the place behind it.
#[tactic(auto, unfolding(crate::specs::Spans::due_at))]
pub fn due_number(text: &[u8], cut: bool, at: usize) -> Result<(u16, usize), Fault>
    ensures { result ≡ due_at text.now cut at }
{
    match next_number(text, cut, at)? {
        Ahead::Number(value, span) => Ok((value, span.end)),
        Ahead::Other(span) => Err(Fault {
            span,
            expected: Expected::Number,
        }),
    }
}

// Reads the numbers from a place up to the next word, or to the end, into a buffer: how many there are, and the place behind them.
pub fn read_numbers(
    text: &[u8],
    cut: bool,
    at: usize,
    buffer: &mut [u16],
) -> Result<(usize, usize), Fault>
    ensures value { result ≡ numbers_of (listing text.now cut (length buffer.old) at) }
    ensures buffer_after { buffer.new ≡ overwritten (listing text.now cut (length buffer.old) at).values buffer.old }
{
    let mut place = at;
    for count in 0..buffer.len() {
        match next_number(text, cut, place)? {
            Ahead::Number(value, span) => {
                buffer[count] = value;
                place = span.end;
            }
            Ahead::Other(_) => return Ok((count, place)),
        }
    }
    match next_number(text, cut, place)? {
        Ahead::Number(_, span) => Err(Fault {
            span,
            expected: Expected::Fewer,
        }),
        Ahead::Other(_) => Ok((buffer.len(), place)),
    }
}
