// Offering a kind to the list: three numbers and five words a row, and the slots by which kinds are found.
ghost use Rattle.std.specs.Prelude.{◌≡◌, ◌+◌, ◌*◌, ◌≤◌, length};
ghost use Rattle.kind_slots.specs.Slots.{Entered};
ghost use Rattle.kind_lists.specs.Listing.{with_row, offering, Room, Becomes};

use crate::Stop;
use breaking::{Verdicts, breaks};
use kind_slots::slots::{enter_row, find_slot, is_occupied};
use kind_slots::stored::store_kind;
use tables::Row;

// Row j of the rows.
fn store_row(rows: &mut [u16], j: usize, row: Row)
    requires { 3 * j + 3 ≤ length rows.old }
    ensures { rows.new ≡ with_row rows.old j row.symbol.0 row.left row.right }
{
    let at = 3 * j;
    rows[at] = row.symbol.0;
    rows[at + 1] = row.left;
    rows[at + 2] = row.right;
}

// A kind with its row is offered to the list of the first `count` rows: how many there are then. The slots, rows and words are not
// fields of one struct: of words that it lends, a proof would know no element after the search has read them.
pub fn offer(
    verdicts: Verdicts,
    limit: usize,
    count: usize,
    row: Row,
    kind: &[u64; 6],
    slots: &mut [u32; 1024],
    rows: &mut [u16],
    words: &mut [u64],
) -> Result<usize, Stop>
    requires { Room limit count rows.old words.old × Entered words.old count slots.old }
    ensures { Becomes (offering verdicts limit count row.symbol.0 row.left row.right kind.now slots.old rows.old words.old) result slots.new rows.new words.new }
{
    let slot = find_slot(words, slots, kind);
    if is_occupied(slots, slot) {
        return Ok(count);
    }
    let breaking = breaks(verdicts, kind);
    if count == limit {
        return Err(Stop::Full);
    }
    store_row(rows, count, row);
    store_kind(words, count, kind);
    enter_row(slots, slot, kind, count);
    if breaking {
        return Err(Stop::Breaks(count));
    }
    Ok(count + 1)
}
