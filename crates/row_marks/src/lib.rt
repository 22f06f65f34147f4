// Marks of rows. For a symbol, a row matters on a side only through what the symbol's mask shows of its kind. Rows that agree
// under the mask are of one class, and a row is marked for the symbol where it is the first of its class: a bit a symbol.
#![tactic(auto)]

ghost use Rattle.std.specs.Prelude.{◌≡◌, false, ◌&&◌, ◌+◌, ◌*◌, ◌^◌, ◌<◌, ◌≤◌, get_or, length};
ghost use Rattle.foundation.specs.Tests.{choose};
ghost use Rattle.foundation.specs.Words.{bit};
ghost use Rattle.kind_slots.specs.Stored.{padded_kind, same_words};
ghost use Rattle.row_marks.specs.Marks.{shown, SomeEarlier, MarksOf, MarkedFrom};

use kind_slots::stored::{kind_at, same_words};
use tables::Symbol;

// The symbol of a number.
pub fn symbol_of(number: usize) -> Symbol
    requires { number < 16 }
    ensures { result.0 ≡ number }
{
    Symbol(number as u16)
}

// Whether row i is marked for the symbol.
#[tactic(auto, unfolding(foundation::specs::Words::bit))]
pub fn is_marked(firsts: &[u16; 512], i: usize, symbol: Symbol) -> bool
    requires { (i < 512) × (symbol.0 < 16) }
    ensures { result ≡ bit (get_or firsts.now i 0) symbol.0 }
{
    (firsts[i] >> symbol.0) % 2 == 1
}

// What a mask shows of a kind.
pub fn shown(mask: &[u64; 6], kind: &[u64; 6]) -> [u64; 6]
    ensures { result ≡ shown mask.now kind.now }
{
    [
        kind[0] & mask[0],
        kind[1] & mask[1],
        kind[2] & mask[2],
        kind[3] & mask[3],
        kind[4] & mask[4],
        0,
    ]
}

// Whether row i is a marked row of which the mask shows the same.
fn in_class(
    words: &[u64],
    i: usize,
    mask: &[u64; 6],
    seen: &[u64; 6],
    firsts: &[u16; 512],
    symbol: Symbol,
) -> bool
    requires { (5 * i + 5 ≤ length words.now) × (symbol.0 < 16) × (i < 512) }
    ensures { result ≡ (bit (get_or firsts.now i 0) symbol.0 && same_words (shown mask.now (padded_kind words.now i)) seen.now) }
{
    if is_marked(firsts, i, symbol) {
        let kind = kind_at(words, i);
        let shows = shown(mask, &kind);
        return same_words(&shows, seen);
    }
    false
}

// Whether row j, which has this kind, is the first of its class for the symbol with this mask.
fn is_first(
    words: &[u64],
    j: usize,
    kind: &[u64; 6],
    mask: &[u64; 6],
    firsts: &[u16; 512],
    symbol: Symbol,
) -> bool
    requires { (5 * j ≤ length words.now) × (symbol.0 < 16) × (j ≤ 512) × (kind.now ≡ padded_kind words.now j) }
    ensures { result ≡ false → SomeEarlier words.now mask.now j }
{
    let seen = shown(mask, kind);
    for i in 0..j {
        if in_class(words, i, mask, &seen, firsts, symbol) {
            return false;
        }
    }
    true
}

// A symbol's bit, or nothing.
fn bit_if(test: bool, symbol: Symbol) -> u16
    requires { symbol.0 < 16 }
    ensures { result ≡ choose test (2 ^ symbol.0) 0 }
{
    u16::from(test) << symbol.0
}

// The symbols for which row j is the first of its class, a bit each. A mask has five words, as a kind has.
fn first_symbols(
    words: &[u64],
    masks: &[u64; 80],
    firsts: &[u16; 512],
    symbols: usize,
    j: usize,
) -> u16
    requires { (5 * j + 5 ≤ length words.now) × (symbols ≤ 16) × (j ≤ 512) }
    ensures { MarksOf words.now masks.now symbols j result }
{
    let kind = kind_at(words, j);
    let mut marks: u16 = 0;
    for number in 1..symbols {
        let symbol = symbol_of(number);
        let mask = kind_at(masks, number);
        marks |= bit_if(is_first(words, j, &kind, &mask, firsts, symbol), symbol);
    }
    marks
}

// Marks the rows from a row on, to `stood`.
pub fn mark_rows(
    words: &[u64],
    masks: &[u64; 80],
    firsts: &mut [u16; 512],
    symbols: usize,
    from: usize,
    stood: usize,
)
    requires { (5 * stood ≤ length words.now) × (symbols ≤ 16) × (stood ≤ 512) × (length firsts.old ≡ 512) }
    ensures { MarkedFrom words.now masks.now symbols from stood firsts.old firsts.new }
{
    for j in from..stood {
        firsts[j] = first_symbols(words, masks, firsts, symbols, j);
    }
}
