// Reading documents: the tree that a stretch of numbers begins with, what is refused of it, how many numbers it takes, and where the
// tree of each place ends.
//
// Judging, running and comparing start with `read`; the first two go on with the numbers that the document takes. They find the children of place i by
// what `fill_ends` fills: the left child starts at place i + 1, the right child where the left one ends.
#![tactic(auto)]

ghost use Rattle.std.specs.Prelude.{◌≡◌, ◌+◌, ◌-◌, ◌^◌, ◌≤◌, ◌<◌, min, length, get_or};
ghost use Rattle.model.specs.Documents.{most_numbers, faulty, leading, numbers_taken, verdict_on, leading_verdict};
ghost use Rattle.model.proofs.Laws.Documents.{due_after, Readable, end_from};
ghost use Rattle.reading.specs.Answers.{leading_of, fault_verdict, reading_verdict, taken_by_reading};
ghost use Rattle.reading.specs.Ends.{EndsFrom};

use answers::DocumentFault;
use tables::{Symbol, symbol_wrong};

// The most numbers of a document.
const MOST_NUMBERS: usize = 1023;

// How many trees are still to come after a symbol, where `due` were to come before it.
fn due_after(due: usize, symbol: Symbol) -> usize
    requires { (1 ≤ due) × (due < 2 ^ 63) }
    ensures { result ≡ due_after due symbol.0 }
{
    if symbol.0 == 0 {
        return due - 1;
    }
    due + 1
}

// The tree that the numbers begin with, over the symbols below `symbols`: how many numbers it has, or the place of the fault.
pub fn leading_tree(symbols: usize, numbers: &[u16]) -> Result<usize, usize>
    ensures { leading_of result ≡ leading symbols numbers.now }
{
    let mut due = 1;
    for (at, &number) in numbers.iter().enumerate() {
        let symbol = Symbol(number);
        if symbol_wrong(symbols, symbol) {
            return Err(at);
        }
        due = due_after(due, symbol);
        if due == 0 {
            return Ok(at + 1);
        }
    }
    Err(numbers.len())
}

// How many numbers are looked at: the first 1,023, or all where there are fewer.
fn looked_at(length: usize) -> usize
    ensures { result ≡ min most_numbers length }
{
    length.min(MOST_NUMBERS)
}

// What is refused where the numbers looked at have a fault: 11 if they go on to the last of them and more follow, otherwise 12.
fn fault_of(length: usize, place: usize) -> DocumentFault
    ensures { fault_verdict result ≡ verdict_on length (faulty place) }
{
    if (place == MOST_NUMBERS) & (MOST_NUMBERS < length) {
        return DocumentFault::Length(length);
    }
    DocumentFault::Number(place)
}

// Reads the document that the numbers begin with: how many numbers its tree takes. What stands behind its tree, or behind the first 1,023
// numbers, is not looked at.
pub fn read(symbols: usize, numbers: &[u16]) -> Result<usize, DocumentFault>
    ensures result_value { reading_verdict result ≡ leading_verdict symbols numbers.now }
    ensures result_value_2 { taken_by_reading result ≡ numbers_taken symbols numbers.now }
{
    let length = numbers.len();
    let end = looked_at(length);
    let taken = leading_tree(symbols, &numbers[..end]).map_err(|place| fault_of(length, place))?;
    Ok(taken)
}

// Where the right child of place i starts: where the left child ends, which starts at the next place.
pub fn right_child(ends: &[u16], i: usize) -> usize
    requires { i + 1 < length ends.now }
    ensures { result ≡ get_or ends.now (i + 1) 0 }
{
    usize::from(ends[i + 1])
}

// Where the tree of place i ends, from where those of later places do.
fn end_at(numbers: &[u16], i: usize, ends: &[u16]) -> u16
    requires readable { Readable numbers.now }
    requires i_in_bounds { (i < length numbers.now) × (length numbers.now ≤ most_numbers) × (length numbers.now ≤ length ends.now) }
    requires ends_from { EndsFrom (i + 1) numbers.now ends.now }
    ensures { result ≡ end_from numbers.now i }
{
    if numbers[i] == 0 {
        return (i + 1) as u16;
    }
    let right = right_child(ends, i);
    ends[right]
}

// Fills in where the tree of each place of a document ends: entry i is the place after the tree that starts at place i.
pub fn fill_ends(numbers: &[u16], ends: &mut [u16])
    requires readable { Readable numbers.now }
    requires numbers_len_bound { (length numbers.now ≤ most_numbers) × (length numbers.now ≤ length ends.old) }
    ensures { EndsFrom 0 numbers.now ends.new }
{
    for i in (0..numbers.len()).rev() {
        let end = end_at(numbers, i, ends);
        ends[i] = end;
    }
}
