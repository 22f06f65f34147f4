// Comparing two examples: of two buffers that each begin with a document, the stretch of the shorter one; and why there is none.
//
// Both questions start with `compare`, which tells which buffer's tree comes back and how many numbers it has, or what is refused.
// `shorter` takes that stretch out of the buffers that were lent. It copies nothing, and what it hands back lives as long as both.
#![tactic(auto)]

ghost use Rattle.std.specs.Prelude.{◌≡◌};
ghost use Rattle.model.specs.Admission.{outside};
ghost use Rattle.model.specs.Shorter.{shorter_verdict};
ghost use Rattle.model.specs.Shorter as model;
ghost use Rattle.comparing.specs.Answers.{stretch_of, stretch_compared, verdict_of, refusal_verdict};
ghost use Rattle.comparing.specs.Stretches.{as_part, shorter_part};

use admission_tables::sizes::is_outside;
use answers::DocumentFault;
use reading::read;

// Why two buffers are not compared.
#[derive(Clone, Copy, Debug, PartialEq, Eq)]
pub enum ComparingFault {
    // The symbol count is out of range.
    Symbols,
    // What is wrong with the first buffer.
    First(DocumentFault),
    // What is wrong with the second buffer.
    Second(DocumentFault),
}

// A stretch of one of the two buffers: it starts where the buffer does, and has so many numbers.
#[derive(Clone, Copy, Debug, PartialEq, Eq)]
enum Stretch {
    First(usize),
    Second(usize),
}

// Whether there cannot be so many symbols.
fn symbols_wrong(symbols: usize) -> bool
    ensures { result ≡ outside 1 16 symbols }
{
    is_outside(1, 16, symbols)
}

// Of a tree of n numbers in the first buffer and one of m in the second, the one with fewer; on a tie, the first.
#[tactic(auto, unfolding(model::specs::Shorter::fewer))]
fn fewer(n: usize, m: usize) -> Stretch
    ensures { stretch_of result ≡ model.fewer n m }
{
    if m < n {
        return Stretch::Second(m);
    }
    Stretch::First(n)
}

// Compares the trees that two buffers begin with. The second buffer is looked at only if nothing is wrong with the first.
fn compare(symbols: usize, first: &[u16], second: &[u16]) -> Result<Stretch, ComparingFault>
    ensures verdict { verdict_of result ≡ shorter_verdict symbols first.now second.now }
    ensures stretch { stretch_compared result ≡ model.shorter symbols first.now second.now }
{
    if symbols_wrong(symbols) {
        return Err(ComparingFault::Symbols);
    }
    let n = read(symbols, first).map_err(ComparingFault::First)?;
    let m = read(symbols, second).map_err(ComparingFault::Second)?;
    Ok(fewer(n, m))
}

// The shorter of the two trees that the buffers begin with, as the very stretch of its buffer; on a tie, the first buffer's. Where
// something is refused, the empty stretch at the first buffer's start.
pub fn shorter<'a>(symbols: usize, first: &'a [u16], second: &'a [u16]) -> &'a [u16]
    ensures { as_part result ≡ shorter_part symbols first.entry second.entry }
{
    match compare(symbols, first, second) {
        Ok(Stretch::First(count)) => &first[..count],
        Ok(Stretch::Second(count)) => &second[..count],
        Err(_) => &first[..0],
    }
}

// The second question: why the two buffers are not compared, or nothing.
pub fn shorter_refusal(symbols: usize, first: &[u16], second: &[u16]) -> Option<ComparingFault>
    ensures { refusal_verdict result ≡ shorter_verdict symbols first.now second.now }
{
    compare(symbols, first, second).err()
}
