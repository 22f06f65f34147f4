// Writing out the tree of a row: its numbers in preorder, at the front of a lent buffer.
//
// Every row is tested first. Then sizes are counted, row by row and no further than the buffer has room, so that a tree
// that does not fit is refused before anything is written, also one of 2^4096 numbers. Then the tree is written, by a
// recursion on rows whose numbers fall.
#![tactic(auto)]

ghost use Rattle.std.specs.Prelude.{◌≡◌, ℕ, ◌+◌, ◌≤◌, ◌<◌, ◌^◌, length, get_or, IfOk};
ghost use Rattle.std.proofs.lemmas.List.Edits.{sets};
ghost use Rattle.foundation.specs.Search.{first_below};
ghost use Rattle.model.specs.Rows.{row_count};
ghost use Rattle.model.specs.WritingOut.{row_wrong, writing_out};
ghost use Rattle.tables.specs.Tuples.{row_of};
ghost use Rattle.answers.specs.Numbers.{writing_answer};
ghost use Rattle.writing.specs.Rows.{wrong_at, NoneWrong, numbers_at, size_within};
ghost use Rattle.writing.specs.Tests.{rows_verdict, rows_told};

use answers::WritingRefusal;
use searching::first_where;
use tables::{Row, row_at, tuples_wrong};

// The most rows that a table has.
const MOST_ROWS: usize = 4096;

// Whether a row can not be row k: its symbol is above 15, or its children are not as its symbol asks.
fn row_wrong(k: usize, row: Row) -> bool
    ensures { result ≡ row_wrong k (row_of row) }
{
    let symbol = row.symbol.0;
    let left = usize::from(row.left);
    let right = usize::from(row.right);
    if symbol == 0 {
        return !((left == 0) & (right == 0));
    }
    (15 < symbol) | ((k <= left) | (k <= right))
}

// The first wrong row, if there is one.
fn first_wrong_row(rows: &[u16]) -> Option<usize>
    ensures { result ≡ first_below (wrong_at rows.now) (row_count rows.now) }
{
    first_where(rows.len() / 3, |k| row_wrong(k, row_at(rows, k)))
}

// Rows that are tested: none is wrong.
#[derive(Clone, Copy)]
struct FineRows<'a> {
    rows: &'a [u16],
    ghost none_wrong: { NoneWrong rows.now },
}

// Tests every row.
fn tested<'a>(rows: &'a [u16]) -> Result<FineRows<'a>, WritingRefusal>
    ensures verdict { rows_told result ≡ rows_verdict rows.entry.now }
    ensures same { IfOk result (λ table. table.rows.now ≡ rows.entry.now) }
{
    if tuples_wrong(3, MOST_ROWS, rows.len()) {
        return Err(WritingRefusal::Rows);
    }
    if let Some(wrong) = first_wrong_row(rows) {
        return Err(WritingRefusal::Row(wrong));
    }
    Ok(FineRows { rows })
}

impl<'a> FineRows<'a> {
    // How many rows there are.
    fn count(&self) -> usize
        ensures { result ≡ row_count self.now.rows.now }
    {
        self.rows.len() / 3
    }

    // How many numbers the tree of row k has, or `most` where it has more, from those of the rows below it.
    fn row_size(&self, k: usize, most: usize, sizes: &[usize]) -> usize
        requires k_bound { (k < row_count self.now.rows.now) × (k ≤ length sizes.now) × (1 ≤ most) × (most < 2 ^ 63) }
        requires by_index { (j : ℕ) → j < k → get_or sizes.now j 0 ≡ size_within most self.now.rows.now j }
        ensures { result ≡ size_within most self.now.rows.now k }
    {
        let row = row_at(self.rows, k);
        if row.symbol.0 == 0 {
            return 1;
        }
        let left = usize::from(row.left);
        let right = usize::from(row.right);
        let size = 1 + sizes[left] + sizes[right];
        size.min(most)
    }

    // The same for any row, counted from row 0 on, with room of its own for the sizes of so many rows.
    fn size_in<const ROOM: usize>(&self, row: usize, most: usize) -> usize
        requires { (row < row_count self.now.rows.now) × (row < ROOM) × (ROOM ≤ 4096) × (1 ≤ most) × (most < 2 ^ 63) }
        ensures { result ≡ size_within most self.now.rows.now row }
    {
        let mut sizes = [0; ROOM];
        for k in 0..=row {
            sizes[k] = self.row_size(k, most, &sizes);
        }
        sizes[row]
    }

    // The same, with room for 64 rows or for as many as there may be.
    fn tree_size(&self, row: usize, most: usize) -> usize
        requires { (row < row_count self.now.rows.now) × (row < 4096) × (1 ≤ most) × (most < 2 ^ 63) }
        ensures { result ≡ size_within most self.now.rows.now row }
    {
        if row < 64 {
            return self.size_in::<64>(row, most);
        }
        self.size_in::<MOST_ROWS>(row, most)
    }

    // Writes the tree of row k from the place `at` on, and returns the place after it.
    fn write_row(&self, k: usize, buffer: &mut [u16], at: usize) -> usize
        requires k_bound { k < row_count self.now.rows.now }
        requires k_in_bounds { at + length (numbers_at self.now.rows.now k) ≤ length buffer.old }
        ensures { (result ≡ at + length (numbers_at self.now.rows.now k))
            × (buffer.new ≡ sets buffer.old at (numbers_at self.now.rows.now k)) }
    {
        let row = row_at(self.rows, k);
        let symbol = row.symbol.0;
        buffer[at] = symbol;
        if symbol == 0 {
            return at + 1;
        }
        let left = usize::from(row.left);
        let right = usize::from(row.right);
        let middle = self.write_row(left, buffer, at + 1);
        self.write_row(right, buffer, middle)
    }
}

// Writes the tree of a row to the front of the buffer; what follows there is kept. A refusal writes nothing.
pub fn write_out(rows: &[u16], row: usize, buffer: &mut [u16]) -> Result<usize, WritingRefusal>
    ensures { (writing_answer result ≡ (writing_out rows.now row buffer.old).answer)
        × (buffer.new ≡ (writing_out rows.now row buffer.old).numbers) }
{
    let table = tested(rows)?;
    if table.count() <= row {
        return Err(WritingRefusal::Number(row));
    }
    let room = buffer.len();
    let most = room + 1;
    let size = table.tree_size(row, most);
    if room < size {
        return Err(WritingRefusal::Room(room));
    }
    Ok(table.write_row(row, buffer, 0))
}
