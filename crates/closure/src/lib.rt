// Whether a list of kinds holds the kind of every symbol over every two of them.
#![tactic(auto)]

pub mod sent;

ghost use Rattle.std.specs.Prelude.{◌≡◌, ◌<◌, ◌≤◌};
ghost use Rattle.model.specs.Examining.{closed_verdict};
ghost use Rattle.kind_words.specs.Sizes.{most_symbols};
ghost use Rattle.closure.specs.Held.{ToldInside, closure_verdict};
ghost use Rattle.closure.specs.Sent.{contract_for, sent_kinds, held, Numbers, TellsLeft, TellsPairs, TellsSymbol};

use kind_slots::stored::kind_at;
use kinds::kind_of;
use row_marks::symbol_of;
use sent::SentKinds;
use shown_kinds::{chain_rows, is_shown, room_for_chains, room_for_rows};
use tables::{Numbered, Symbol};

// The number of a kind in the list.
#[derive(Clone, Copy, Debug, PartialEq, Eq)]
pub struct KindNumber(pub u16);

// A symbol over two kinds of the list whose kind it does not hold.
#[derive(Clone, Copy, Debug, PartialEq, Eq)]
pub struct Open {
    pub symbol: Symbol,
    pub left: KindNumber,
    pub right: KindNumber,
}

impl Numbered for KindNumber {
    ghost number = { λ kind. kind.0 };

    fn number(self) -> usize {
        let KindNumber(kind) = self;
        usize::from(kind)
    }
}

// Whether the list holds the kind of a symbol over two of its kinds.
fn is_held(
    sent: &SentKinds,
    symbol: Symbol,
    left: KindNumber,
    right: KindNumber,
    room: &mut [u64; 256],
) -> bool
    requires { (symbol.0 < most_symbols) × (left.0 < sent_kinds sent.now) × (right.0 < sent_kinds sent.now) }
    ensures { result ≡ held sent.now symbol.0 left.0 right.0 }
{
    let left_kind = kind_at(sent.words, left.number());
    let right_kind = kind_at(sent.words, right.number());
    let kind = kind_of(&sent.masked.prepared, symbol, &left_kind, &right_kind, room);
    is_shown(sent.words, sent.mask, sent.chains, &kind)
}

// Whether the list holds the kinds of a symbol over a left kind and these right kinds; if not, the first that is missing.
fn left_closure(
    sent: &SentKinds,
    symbol: Symbol,
    left: KindNumber,
    rights: &[u16],
    room: &mut [u64; 256],
) -> Result<(), Open>
    requires { (symbol.0 < most_symbols) × (left.0 < sent_kinds sent.now) × Numbers sent.now rights.now }
    ensures { TellsLeft sent.now symbol.0 left.0 rights.now result }
{
    for &number in rights {
        let right = KindNumber(number);
        if !is_held(sent, symbol, left, right, room) {
            return Err(Open {
                symbol,
                left,
                right,
            });
        }
    }
    Ok(())
}

// Whether the list holds the kinds of a symbol over these left and right kinds.
fn closure_over(
    sent: &SentKinds,
    symbol: Symbol,
    lefts: &[u16],
    rights: &[u16],
    room: &mut [u64; 256],
) -> Result<(), Open>
    requires { (symbol.0 < most_symbols) × Numbers sent.now lefts.now × Numbers sent.now rights.now }
    ensures { TellsPairs sent.now symbol.0 lefts.now rights.now result }
{
    for &left in lefts {
        left_closure(sent, symbol, KindNumber(left), rights, room)?;
    }
    Ok(())
}

// Whether the list holds the kinds of a symbol over all of its kinds: the first ones of the symbol's classes tell of all.
fn symbol_closure(sent: &SentKinds, number: usize, room: &mut [u64; 256]) -> Result<(), Open>
    requires { (1 ≤ number) × (number < sent.now.masked.now.prepared.parts.symbols) }
    ensures { TellsSymbol sent.now number result }
{
    let mut classes = room_for_chains();
    let mut lefts = room_for_rows();
    let mut rights = room_for_rows();
    let left_mask = kind_at(&sent.masked.left_masks, number);
    let right_mask = kind_at(&sent.masked.right_masks, number);
    let left_count = chain_rows(sent.words, &left_mask, &mut classes, &mut lefts);
    let right_count = chain_rows(sent.words, &right_mask, &mut classes, &mut rights);
    closure_over(
        sent,
        symbol_of(number),
        &lefts[..left_count],
        &rights[..right_count],
        room,
    )
}

// Whether the list holds the kinds of all symbols over all of its kinds; if not, the first in listing order that is missing.
pub fn closure_of(sent: &SentKinds, room: &mut [u64; 256]) -> Result<(), Open>
    ensures { (closure_verdict result ≡ closed_verdict (contract_for sent.now) sent.now.words.now) × ToldInside (sent_kinds sent.now) result }
{
    for number in 1..sent.masked.prepared.parts.symbols {
        symbol_closure(sent, number, room)?;
    }
    Ok(())
}
