// A turn: a statement is read and done.
ghost use Rattle.std.specs.Prelude.{◌≡◌, List, ◌++◌, ℕ, ◌+◌, ◌-◌, ◌≤◌, length, take, drop};
ghost use Rattle.script.specs.Spans.{overwritten};
ghost use Rattle.script.specs.Statements.{statement_at};
ghost use Rattle.script.specs.Meaning.{most_numbers};
ghost use Rattle.playing.specs.Desks.{kept, label_of, state_of, LabelFits, InOrder};
ghost use Rattle.playing.specs.Plays.{Buffers};
ghost use Rattle.playing.specs.Turns.{Turns};

use crate::answering::Done;
use crate::desks::Desk;
use crate::showing::Printed;
use crate::statements::do_statement;
use crate::whole_lines::fault_line;
use script::spans::Span;
use script::statements::{Misread, Reading, read_statement};

// Reads the statement at a place; the numbers of its list become the free ones.
fn read_next(
    text: &[u8],
    cut: bool,
    at: usize,
    used: usize,
    numbers: &mut [u16],
) -> Result<Option<Reading>, Misread>
    requires { used ≤ length numbers.old }
    ensures value { result ≡ (statement_at text.now cut (length numbers.old - used) at).reading }
    ensures numbers_after { numbers.new ≡ take used numbers.old ++ overwritten (statement_at text.now cut (length numbers.old - used) at).values (drop used numbers.old) }
{
    read_statement(text, cut, at, &mut numbers[used..])
}

// What stands behind a turn, what it prints, and where the script goes on, if it does.
#[derive(Clone, Copy, Debug, PartialEq, Eq)]
pub struct Turn {
    pub done: Done,
    pub next: Option<usize>,
}

// Reads the statement at a place and does it.
pub fn play_turn(
    text: &[u8],
    cut: bool,
    at: usize,
    label: Option<Span>,
    desk: Desk,
    numbers: &mut [u16],
    rows: &mut [u16],
    words: &mut [u64],
    tree: &mut [u16],
    out: &mut [u8],
) -> Turn
    requires { InOrder desk × LabelFits label (length text.now) × (length numbers.old ≡ kept + most_numbers) × Buffers rows.old words.old out.old × (length tree.old ≡ 65535) }
    ensures { Turns text.now cut at label (state_of (label_of text.now label) desk numbers.old rows.old words.old)
        result numbers.new rows.new words.new out.new }
{
    match read_next(text, cut, at, desk.used, numbers) {
        Ok(Some(reading)) => {
            let done = do_statement(
                Ok(Some(reading.statement)),
                label,
                desk,
                numbers,
                rows,
                words,
                tree,
                out,
            );
            Turn {
                done,
                next: Some(reading.next),
            }
        }
        Ok(None) => Turn {
            done: Done {
                label,
                desk,
                printed: Printed::Nothing,
            },
            next: None,
        },
        Err(Misread { fault, .. }) => {
            let printed = Printed::Bare(fault_line(out, text, fault));
            let done = Done {
                label,
                desk,
                printed,
            };
            Turn { done, next: None }
        }
    }
}
