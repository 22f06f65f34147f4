// A symbol's part of a round: over the left rows and the right rows that are the first of their class, the kinds of the pairs that
// could be new are offered to the list. The list's slots, rows and words stay parameters, as in `kind_lists::listing::offer`.
#![tactic(auto)]

ghost use Rattle.std.specs.Prelude.{◌≡◌, ◌+◌, ◌<◌, ◌≤◌, ltb};
ghost use Rattle.foundation.specs.Tests.{choose};
ghost use Rattle.prepared.specs.Contract.{contract_of};
ghost use Rattle.round_pairs.specs.Steps.{RightsMarked};
ghost use Rattle.round_pairs.specs.Stretches.{OverPair, Stands, Comes, AllMarked};

use kind_lists::Stop;
use kind_lists::listing::offer;
use kind_slots::stored::kind_at;
use kinds::kind_of;
use prepared::Prepared;
use row_marks::is_marked;
use tables::{Row, Symbol};

// A round over the rows below `stood`, which have the kinds of all trees up to a height, under a limit; pairs of rows below `before` were
// visited.
#[derive(Clone, Copy, Debug, PartialEq, Eq)]
pub struct Round {
    pub limit: usize,
    pub height: usize,
    pub before: usize,
    pub stood: usize,
}

// A place in a round: before a symbol over a left row, where so many rows are listed.
#[derive(Clone, Copy, Debug, PartialEq, Eq)]
pub struct Place {
    pub symbol: Symbol,
    pub left: usize,
    pub count: usize,
}

// The kind of a symbol over a left row and a right row is offered to the list of `count` rows: how many there are then.
fn visit_pair(
    prepared: &Prepared,
    round: Round,
    pair: Row,
    count: usize,
    slots: &mut [u32; 1024],
    rows: &mut [u16],
    words: &mut [u64],
    room: &mut [u64; 256],
) -> Result<usize, Stop>
    requires { OverPair prepared.now round pair count slots.old rows.old words.old × (pair.symbol.0 < prepared.now.parts.symbols) × (pair.left < round.stood) × (pair.right < round.stood) }
    ensures { Comes prepared.now round pair.symbol.0 pair.left (pair.right + 1) slots.new rows.new words.new result }
{
    let left_kind = kind_at(words, usize::from(pair.left));
    let right_kind = kind_at(words, usize::from(pair.right));
    let kind = kind_of(prepared, pair.symbol, &left_kind, &right_kind, room);
    let verdicts = prepared.parts.verdicts;
    offer(
        verdicts,
        round.limit,
        count,
        pair,
        &kind,
        slots,
        rows,
        words,
    )
}

// The first right row that could make a new pair with this left row.
fn first_right(left: usize, before: usize) -> usize
    ensures { result ≡ choose (ltb left before) before 0 }
{
    if left < before {
        return before;
    }
    0
}

// The pairs of the left row at a place with the right rows that are the first of their class: how many rows are listed then.
fn right_rows(
    prepared: &Prepared,
    round: Round,
    place: Place,
    rights: &[u16; 512],
    slots: &mut [u32; 1024],
    rows: &mut [u16],
    words: &mut [u64],
    room: &mut [u64; 256],
) -> Result<usize, Stop>
    requires { Stands prepared.now round place slots.old rows.old words.old × RightsMarked (contract_of prepared.now) round.stood rights.now × (place.symbol.0 < prepared.now.parts.symbols) × (place.left < round.stood) }
    ensures { Comes prepared.now round place.symbol.0 (place.left + 1) 0 slots.new rows.new words.new result }
{
    let mut total = place.count;
    for right in first_right(place.left, round.before)..round.stood {
        if !is_marked(rights, right, place.symbol) {
            continue;
        }
        let pair = Row {
            symbol: place.symbol,
            left: place.left as u16,
            right: right as u16,
        };
        total = visit_pair(prepared, round, pair, total, slots, rows, words, room)?;
    }
    Ok(total)
}

// The pairs of a symbol from a place on: those of the left rows that are the first of their class; how many rows are listed then.
pub fn left_rows(
    prepared: &Prepared,
    round: Round,
    place: Place,
    lefts: &[u16; 512],
    rights: &[u16; 512],
    slots: &mut [u32; 1024],
    rows: &mut [u16],
    words: &mut [u64],
    room: &mut [u64; 256],
) -> Result<usize, Stop>
    requires { Stands prepared.now round place slots.old rows.old words.old × AllMarked prepared.now round lefts.now rights.now × (place.symbol.0 < prepared.now.parts.symbols) × (place.left ≤ round.stood) }
    ensures { Comes prepared.now round (place.symbol.0 + 1) 0 0 slots.new rows.new words.new result }
{
    let mut total = place.count;
    for left in place.left..round.stood {
        if !is_marked(lefts, left, place.symbol) {
            continue;
        }
        let here = Place {
            left,
            count: total,
            ..place
        };
        total = right_rows(prepared, round, here, rights, slots, rows, words, room)?;
    }
    Ok(total)
}
