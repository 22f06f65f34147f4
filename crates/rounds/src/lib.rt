// The rounds, which list the kinds of a prepared contract. Round 0 lists the kind of the empty forest. Each later one goes through
// the symbols, until one adds nothing. The list's slots, rows and words stay parameters, as in `kind_lists::listing::offer`.
#![tactic(auto)]

ghost use Rattle.std.specs.Prelude.{◌≤◌};
ghost use Rattle.prepared.specs.Contract.{contract_of};
ghost use Rattle.kind_slots.specs.Slots.{Entered};
ghost use Rattle.kind_lists.specs.Listing.{Room};
ghost use Rattle.round_pairs.specs.Stretches.{Starts, Comes, AllMarked};
ghost use Rattle.rounds.specs.Between.{Between};
ghost use Rattle.rounds.specs.Lists.{Begun, Grows, Lists};

use kind_lists::closing::stop_after;
use kind_lists::listing::offer;
use kind_lists::{ListStop, Stop};
use kinds::empty_of;
use masks::Masked;
use prepared::Prepared;
use round_pairs::{Place, Round, left_rows};
use row_marks::{mark_rows, symbol_of};
use tables::{Row, Symbol};

// One round: all symbols.
fn one_round(
    prepared: &Prepared,
    round: Round,
    lefts: &[u16; 512],
    rights: &[u16; 512],
    slots: &mut [u32; 1024],
    rows: &mut [u16],
    words: &mut [u64],
    room: &mut [u64; 256],
) -> Result<usize, Stop>
    requires { Starts prepared.now round slots.old rows.old words.old × AllMarked prepared.now round lefts.now rights.now }
    ensures { Comes prepared.now round prepared.now.parts.symbols 0 0 slots.new rows.new words.new result }
{
    let mut total = round.stood;
    for number in 1..prepared.parts.symbols {
        let here = Place {
            symbol: symbol_of(number),
            left: 0,
            count: total,
        };
        total = left_rows(
            prepared, round, here, lefts, rights, slots, rows, words, room,
        )?;
    }
    Ok(total)
}

// One round, and where it stops, why the list ends: all trees up to the height of the round before have their kinds in it.
fn next_round(
    prepared: &Prepared,
    round: Round,
    lefts: &[u16; 512],
    rights: &[u16; 512],
    slots: &mut [u32; 1024],
    rows: &mut [u16],
    words: &mut [u64],
    room: &mut [u64; 256],
) -> Result<usize, ListStop>
    requires { Starts prepared.now round slots.old rows.old words.old × AllMarked prepared.now round lefts.now rights.now }
    ensures { Grows prepared.now round slots.new rows.new words.new result }
{
    let step = one_round(prepared, round, lefts, rights, slots, rows, words, room);
    step.map_err(|stop| stop_after(round.height, stop))
}

// The rounds from 1 on, over the rows of round 0, until one adds nothing. After round h the kinds of all trees up to height h are listed.
fn all_rounds(
    masked: &Masked,
    limit: usize,
    count: usize,
    slots: &mut [u32; 1024],
    rows: &mut [u16],
    words: &mut [u64],
    room: &mut [u64; 256],
) -> Result<usize, ListStop>
    requires { Between (contract_of masked.now.prepared) limit 0 0 count slots.old rows.old words.old }
    ensures { Lists masked.now limit rows.new words.new result }
{
    let prepared = &masked.prepared;
    let symbols = prepared.parts.symbols;
    let mut lefts = [0u16; 512];
    let mut rights = [0u16; 512];
    let mut round = Round {
        limit,
        height: 0,
        before: 0,
        stood: count,
    };
    // Until a round adds nothing, which no range tells beforehand.
    while round.before < round.stood {
        mark_rows(
            words,
            &masked.left_masks,
            &mut lefts,
            symbols,
            round.before,
            round.stood,
        );
        mark_rows(
            words,
            &masked.right_masks,
            &mut rights,
            symbols,
            round.before,
            round.stood,
        );
        let total = next_round(prepared, round, &lefts, &rights, slots, rows, words, room)?;
        round = Round {
            height: round.height + 1,
            before: round.stood,
            stood: total,
            ..round
        };
    }
    Ok(round.stood)
}

// Round 0: the kind of the empty forest is offered to the empty list.
fn first_round(
    prepared: &Prepared,
    limit: usize,
    slots: &mut [u32; 1024],
    rows: &mut [u16],
    words: &mut [u64],
    room: &mut [u64; 256],
) -> Result<usize, ListStop>
    requires { Room limit 0 rows.old words.old × Entered words.old 0 slots.old × (1 ≤ limit) }
    ensures { Begun prepared.now limit slots.new rows.new words.new result }
{
    let kind = empty_of(prepared, room);
    let empty = Row {
        symbol: Symbol(0),
        left: 0,
        right: 0,
    };
    let verdicts = prepared.parts.verdicts;
    offer(verdicts, limit, 0, empty, &kind, slots, rows, words).map_err(|stop| stop_after(0, stop))
}

// Lists the kinds of a prepared contract, round by round, until the answer is known: how many there are, where none breaks it.
pub fn list_kinds(
    masked: &Masked,
    limit: usize,
    rows: &mut [u16],
    words: &mut [u64],
) -> Result<usize, ListStop>
    requires { Room limit 0 rows.old words.old × (1 ≤ limit) }
    ensures { Lists masked.now limit rows.new words.new result }
{
    let mut room = [0u64; 256];
    let mut slots = [0u32; 1024];
    let count = first_round(&masked.prepared, limit, &mut slots, rows, words, &mut room)?;
    all_rounds(masked, limit, count, &mut slots, rows, words, &mut room)
}
