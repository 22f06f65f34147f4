// Lines at the beginning of an output buffer: a fault's, and whole lines but for their label, a space, the text and a line feed.
ghost use Rattle.std.specs.Prelude.{◌++◌};
ghost use Rattle.answers.specs.Numbers.{numbered, writing_answer};
ghost use Rattle.printing.specs.Appending.{Appended, Appends};
ghost use Rattle.script.specs.Meaning.{line, spaced, answer_text, written_text, fault_line, untouched};
ghost use Rattle.script.specs.Phrases as phrases;

use answers::WritingRefusal;
use answers::numbered::{Answer, Refusal};
use lines::appending::{append_answer_line, append_writing};
use lines::faults::append_fault;
use lines::lists::{append_behind_space, append_rows, append_words};
use printing::pages::Page;
use script::spans::Fault;

// The line of a fault, and where it ends.
pub fn fault_line(out: &mut [u8], text: &[u8], fault: Fault) -> usize
    ensures { Appended out.old 0 (fault_line text.now fault) result out.new }
{
    let mut page = Page::new(out);
    append_fault(&mut page, text, fault);
    page.at
}

// The answer of a question, and where it ends.
pub fn answer_line(out: &mut [u8], answer: Result<Answer, Refusal>) -> usize
    ensures { Appended out.old 0 (line (answer_text (numbered answer))) result out.new }
{
    let mut page = Page::new(out);
    append_answer_line(&mut page, answer);
    page.at
}

// The answer of writing out, with the numbers written, and where it ends.
pub fn writing_line(out: &mut [u8], answer: Result<usize, WritingRefusal>, numbers: &[u16]) -> usize
    ensures { Appended out.old 0 (line (written_text (record { answer = writing_answer answer; numbers = numbers.now }))) result out.new }
{
    let mut page = Page::new(out);
    page.push(b' ');
    append_writing(&mut page, answer, numbers);
    page.push(b'\n');
    page.at
}

// The numbers of a row buffer. A function that put a line round any text would take the text as a closure, and each of these would be as long.
pub fn rows_line(page: &mut Page, rows: &[u16])
    ensures { Appends page.old page.new (line (phrases.rows ++ spaced rows.now)) }
{
    page.push(b' ');
    append_rows(page, rows);
    page.push(b'\n');
}

// The words of a word buffer.
pub fn words_line(page: &mut Page, words: &[u64])
    ensures { Appends page.old page.new (line (phrases.words ++ spaced words.now)) }
{
    page.push(b' ');
    append_words(page, words);
    page.push(b'\n');
}

// So many sevens, each behind a space.
fn append_sevens(page: &mut Page, count: usize)
    ensures { Appends page.old page.new (spaced (untouched count)) }
{
    page.clip();
    for _ in 0..count {
        append_behind_space(page, 7);
    }
}

// A buffer that is all sevens, behind its word.
pub fn sevens_line(page: &mut Page, word: &[u8], count: usize)
    ensures { Appends page.old page.new (line (word.now ++ spaced (untouched count))) }
{
    page.push(b' ');
    page.append(word);
    append_sevens(page, count);
    page.push(b'\n');
}
