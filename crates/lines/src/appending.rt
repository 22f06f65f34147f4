// The texts of answers, put on a page.
ghost use Rattle.std.specs.Prelude.{◌∷◌, ◌++◌, take};
ghost use Rattle.model.specs.Answers.{stopped};
ghost use Rattle.model.specs.WritingOut.{Written};
ghost use Rattle.answers.specs.Numbers.{numbered, writing_answer};
ghost use Rattle.printing.specs.Decimals.{decimal};
ghost use Rattle.printing.specs.Appending.{Appends};
ghost use Rattle.script.specs.Meaning.{line, spaced, answer_text, written_text};

use crate::lists::{append_behind_space, append_numbers};
use answers::WritingRefusal;
use answers::numbered::{Answer, Refusal, of_writing};
use printing::pages::Page;

// A word and a number.
pub fn append_one(page: &mut Page, word: &[u8], value: usize)
    ensures { Appends page.old page.new (word.now ++ decimal value) }
{
    page.append(word);
    page.append_decimal(value as u64);
}

// A word and two numbers.
fn append_two(page: &mut Page, word: &[u8], first: usize, second: usize)
    ensures { Appends page.old page.new (word.now ++ decimal first ++ (32 ∷ decimal second)) }
{
    append_one(page, word, first);
    append_behind_space(page, second as u64);
}

// A stop at the limit: refusal 10 with the limit, and behind them the height.
fn append_stop(page: &mut Page, limit: usize, height: usize)
    ensures { Appends page.old page.new (answer_text (stopped limit height)) }
{
    append_two(page, b"refused ", 10, limit);
    append_behind_space(page, height as u64);
}

// An answer.
pub fn append_answer(page: &mut Page, answer: Result<Answer, Refusal>)
    ensures { Appends page.old page.new (answer_text (numbered answer)) }
{
    match answer {
        Ok(Answer::Admitted) => page.append(b"admitted"),
        Ok(Answer::Judged(result, taken)) => append_two(page, b"judged ", result, taken),
        Ok(Answer::Tree(row)) => append_one(page, b"tree ", row),
        Ok(Answer::Pass(count)) => append_one(page, b"pass ", count),
        Ok(Answer::Ran(root, used, _)) => append_two(page, b"run ", root, used),
        Ok(Answer::Written(count)) => append_one(page, b"written ", count),
        Ok(Answer::Stopped(limit, height)) => append_stop(page, limit, height),
        Err(Refusal { number, place }) => append_two(page, b"refused ", number, place),
    }
}

// The line of an answer, behind its label.
pub fn append_answer_line(page: &mut Page, answer: Result<Answer, Refusal>)
    ensures { Appends page.old page.new (line (answer_text (numbered answer))) }
{
    page.push(b' ');
    append_answer(page, answer);
    page.push(b'\n');
}

// The first numbers of a list, behind a colon.
fn append_first(page: &mut Page, count: usize, numbers: &[u16])
    ensures { Appends page.old page.new (58 ∷ spaced (take count numbers.now)) }
{
    page.push(b':');
    append_numbers(page, &numbers[..count.min(numbers.len())]);
}

// What writing out says, with the numbers that it wrote.
pub fn append_writing(page: &mut Page, answer: Result<usize, WritingRefusal>, numbers: &[u16])
    ensures { Appends page.old page.new (written_text (record { answer = writing_answer answer; numbers = numbers.now })) }
{
    append_answer(page, of_writing(answer));
    if let Ok(count) = answer {
        append_first(page, count, numbers);
    }
}
