// The shorter of two examples for C and Rust: which stretch of the two buffers it is, and why there is none.
ghost use Rattle.std.specs.Prelude.{◌≡◌};
ghost use Rattle.model.specs.Shorter.{shorter_verdict};
ghost use Rattle.comparing.specs.Answers.{comparing_verdict};
ghost use Rattle.comparing.specs.Stretches.{as_part, shorter_part};
ghost use Rattle.goosedawn_c.specs.Refusals.{told_of};

use crate::refusal::{Told, tell};
use answers::DocumentFault;
use answers::numbered::Refusal;
use comparing::{ComparingFault, shorter, shorter_refusal};

// Why two buffers are not compared: 1; 11 or 12 of the first; 54 or 55 of the second.
fn tell_fault(fault: ComparingFault) -> Told
    ensures { result ≡ told_of (comparing_verdict fault) }
{
    match fault {
        ComparingFault::Symbols => tell(1, 0),
        ComparingFault::First(wrong) => Told::from(Refusal::from(wrong)),
        ComparingFault::Second(DocumentFault::Length(numbers)) => tell(54, numbers),
        ComparingFault::Second(DocumentFault::Number(place)) => tell(55, place),
    }
}

// The shorter of the trees that the two buffers begin with: its stretch, a pointer into its buffer and a count, is written to `into`.
// (A function that C may call cannot return a reference.)
#[unsafe(no_mangle)]
pub extern "C" fn goosedawn_shorter_into<'a, 'b>(
    symbols: usize,
    first: &'a [u16],
    second: &'a [u16],
    into: &'b mut &'a [u16],
)
    ensures { as_part into.new ≡ shorter_part symbols first.entry second.entry }
{
    let part = shorter(symbols, first, second);
    *into = part;
}

// Why there is no shorter tree, or nothing.
#[unsafe(no_mangle)]
pub extern "C" fn goosedawn_shorter_refusal(symbols: usize, first: &[u16], second: &[u16]) -> Told
    ensures { result ≡ told_of (shorter_verdict symbols first.now second.now) }
{
    shorter_refusal(symbols, first, second).map_or(tell(0, 0), tell_fault)
}
