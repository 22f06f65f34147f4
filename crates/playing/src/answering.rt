// A question of a script, answered: its line is printed, and what it wrote is taken over.
ghost use Rattle.std.specs.Prelude.{◌≡◌, List, ℕ, ◌≤◌, length};
ghost use Rattle.playing.specs.Desks.{stretch, span, state_of, InOrder};
ghost use Rattle.playing.specs.Questions.{Small, question_step};
ghost use Rattle.playing.specs.Plays.{Buffers, Plays};

use crate::asking::{ask_lent, sets_rows};
use crate::desks::{Desk, set_left};
use crate::questions::{Question, left_after, lent_to};
use crate::showing::Printed;
use crate::whole_lines::answer_line;
use script::spans::Span;

// What stands behind a statement, and what it prints. The label of the lines is `-` until a token is one.
#[derive(Clone, Copy, Debug, PartialEq, Eq)]
pub struct Done {
    pub label: Option<Span>,
    pub desk: Desk,
    pub printed: Printed,
}

// Answers a question, with the document that the free numbers up to an end make.
pub fn answer(
    label: Option<Span>,
    desk: Desk,
    question: Question,
    end: usize,
    numbers: &mut [u16],
    rows: &mut [u16],
    words: &mut [u64],
    out: &mut [u8],
) -> Done
    requires { InOrder desk × (desk.used ≤ end) × (end ≤ length numbers.old) × Small question × Buffers rows.old words.old out.old }
    ensures by_index { (label : List ℕ) → Plays label label
        (question_step (state_of label desk numbers.old rows.old words.old) question (stretch numbers.old (span desk.used end)))
        result.desk numbers.new rows.new words.new out.new result.printed }
    ensures label_value { result.label ≡ label }
{
    let lent = lent_to(question);
    let given = ask_lent(desk, question, lent, end, numbers, rows, words);
    let printed = Printed::Line(answer_line(out, given));
    let left = left_after(question, desk.left);
    if sets_rows(question, given) {
        let r = lent.rows;
        numbers[..r].copy_from_slice(&rows[..r]);
        let current = Span { start: 0, end: r };
        return Done {
            label,
            desk: set_left(desk, current, left),
            printed,
        };
    }
    Done {
        label,
        desk: set_left(desk, desk.rows, left),
        printed,
    }
}
