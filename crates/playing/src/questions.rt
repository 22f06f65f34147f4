// The questions of a script to admission, judging, checking and running: what is lent to them, and what they leave.
ghost use Rattle.std.specs.Prelude.{◌≡◌};
ghost use Rattle.playing.specs.Questions.{lent_to, left_after, Small};

use crate::desks::Left;

#[derive(Clone, Copy, Debug, PartialEq, Eq)]
pub enum Question {
    Admit,
    Judge,
    // The limit.
    Check(usize),
    // How many rows there is room for.
    Run(usize),
}

// How many numbers and words are lent to a question.
#[derive(Clone, Copy, Debug, PartialEq, Eq)]
pub struct Lent {
    pub rows: usize,
    pub words: usize,
}

// A limit or a room that is refused whatever is lent gets less than it asks for.
pub fn lent_to(question: Question) -> Lent
    requires { Small question }
    ensures { result ≡ lent_to question }
{
    match question {
        Question::Admit => Lent { rows: 0, words: 0 },
        Question::Judge => Lent { rows: 0, words: 5 },
        Question::Check(limit) if limit < 1 || 512 < limit => Lent { rows: 0, words: 0 },
        Question::Check(limit) => Lent {
            rows: 3 * limit,
            words: 5 * limit,
        },
        Question::Run(rows) if 4096 < rows => Lent { rows: 1, words: 0 },
        Question::Run(rows) => Lent {
            rows: 3 * rows,
            words: 0,
        },
    }
}

// What a question leaves in its buffers.
pub fn left_after(question: Question, older: Left) -> Left
    requires { Small question }
    ensures { result ≡ left_after question older }
{
    match question {
        Question::Admit => older,
        Question::Judge => Left::Words(5),
        Question::Check(limit) if limit < 1 || 512 < limit => Left::Sevens(3 * limit, 5 * limit),
        Question::Check(limit) => Left::Both(3 * limit, 5 * limit),
        Question::Run(rows) if 4096 < rows => Left::SevenRows(3 * rows),
        Question::Run(rows) => Left::Rows(3 * rows),
    }
}
