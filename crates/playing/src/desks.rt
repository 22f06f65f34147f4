// What the statements of a script have set so far: the contract's sizes, and where its tables and the current row table
// stand in one buffer of numbers. They are spans of one buffer, since memory is fixed: a script decides how long each table is.
ghost use Rattle.std.specs.Prelude.{◌≡◌};
ghost use Rattle.playing.specs.Desks.{empty_desk, sizes_with, tables_with, desk_with_size, desk_with_table, desk_with_rows, desk_with_left};

use lexing::words::{Size, Table};
use script::spans::Span;

#[derive(Clone, Copy, Debug, PartialEq, Eq)]
pub struct Sizes {
    pub symbols: usize,
    pub input_states: usize,
    pub output_states: usize,
}

#[derive(Clone, Copy, Debug, PartialEq, Eq)]
pub struct Tables {
    pub counts: Span,
    pub input_rows: Span,
    pub input_marks: Span,
    pub output_table: Span,
    pub output_marks: Span,
    pub nodes: Span,
    pub rules: Span,
}

// What the last check, run or judgement left in its buffers.
#[derive(Clone, Copy, Debug, PartialEq, Eq)]
pub enum Left {
    Nothing,
    // So many numbers at the beginning of the row buffer, or words at the beginning of the word buffer.
    Rows(usize),
    Words(usize),
    Both(usize, usize),
    // So many sevens, of a buffer that is longer than any that is written.
    SevenRows(usize),
    Sevens(usize, usize),
}

#[derive(Clone, Copy, Debug, PartialEq, Eq)]
pub struct Desk {
    pub sizes: Sizes,
    pub tables: Tables,
    // The current row table.
    pub rows: Span,
    pub left: Left,
    // The numbers from here on are free.
    pub used: usize,
}

// Before the first statement.
pub fn empty_desk() -> Desk
    ensures { result ≡ empty_desk }
{
    let none = Span {
        start: 12288,
        end: 12288,
    };
    Desk {
        sizes: Sizes {
            symbols: 0,
            input_states: 0,
            output_states: 0,
        },
        tables: Tables {
            counts: none,
            input_rows: none,
            input_marks: none,
            output_table: none,
            output_marks: none,
            nodes: none,
            rules: none,
        },
        rows: none,
        left: Left::Nothing,
        used: 12288,
    }
}

// With another size.
fn with_size(sizes: Sizes, size: Size, value: usize) -> Sizes
    ensures { result ≡ sizes_with sizes size value }
{
    match size {
        Size::Symbols => Sizes {
            symbols: value,
            ..sizes
        },
        Size::InputStates => Sizes {
            input_states: value,
            ..sizes
        },
        Size::OutputStates => Sizes {
            output_states: value,
            ..sizes
        },
    }
}

// With another table.
fn with_table(tables: Tables, table: Table, place: Span) -> Tables
    ensures { result ≡ tables_with tables table place }
{
    match table {
        Table::Counts => Tables {
            counts: place,
            ..tables
        },
        Table::InputRows => Tables {
            input_rows: place,
            ..tables
        },
        Table::InputMarks => Tables {
            input_marks: place,
            ..tables
        },
        Table::OutputTable => Tables {
            output_table: place,
            ..tables
        },
        Table::OutputMarks => Tables {
            output_marks: place,
            ..tables
        },
        Table::Nodes => Tables {
            nodes: place,
            ..tables
        },
        Table::Rules => Tables {
            rules: place,
            ..tables
        },
    }
}

// A size is set.
pub fn set_size(desk: Desk, size: Size, value: usize) -> Desk
    ensures { result ≡ desk_with_size desk size value }
{
    Desk {
        sizes: with_size(desk.sizes, size, value),
        ..desk
    }
}

// The free numbers up to an end are a table from now on.
pub fn set_table(desk: Desk, table: Table, end: usize) -> Desk
    ensures { result ≡ desk_with_table desk table end }
{
    let place = Span {
        start: desk.used,
        end,
    };
    Desk {
        tables: with_table(desk.tables, table, place),
        used: end,
        ..desk
    }
}

// The free numbers up to an end are the current row table from now on.
pub fn set_rows(desk: Desk, end: usize) -> Desk
    ensures { result ≡ desk_with_rows desk end }
{
    let rows = Span {
        start: desk.used,
        end,
    };
    Desk {
        rows,
        used: end,
        ..desk
    }
}

// Other rows are current, and other buffers left.
pub fn set_left(desk: Desk, rows: Span, left: Left) -> Desk
    ensures { result ≡ desk_with_left desk rows left }
{
    Desk { rows, left, ..desk }
}
