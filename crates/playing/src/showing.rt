// What is printed: the lines of a statement, behind their label.
ghost use Rattle.std.specs.Prelude.{◌≡◌, ◌≤◌, length};
ghost use Rattle.model.specs.WritingOut.{writing_out};
ghost use Rattle.script.specs.Meaning.{State, labelled, left_lines, written_text, untouched};
ghost use Rattle.playing.specs.Desks.{stretch, left_of, LeftFits, Inside};
ghost use Rattle.playing.specs.Printed.{printed_text, PrintedFits, most_output};
ghost use Rattle.playing.specs.Plays.{Buffers};

use crate::desks::Left;
use crate::whole_lines::{rows_line, sevens_line, words_line, writing_line};
use printing::pages::Page;
use script::spans::Span;
use writing::write_out;

// What a statement prints, in the first bytes of the output buffer.
#[derive(Clone, Copy, Debug, PartialEq, Eq)]
pub enum Printed {
    Nothing,
    // So many bytes without a label.
    Bare(usize),
    // The label, and so many bytes.
    Line(usize),
    // The label, and the bytes up to the first place; the label again, and the bytes up to the second place.
    Lines(usize, usize),
}

// Shows what the last check, run or judgement left in its buffers, on an empty page.
fn show_on(page: &mut Page, left: Left, rows: &[u16], words: &[u64]) -> Printed
    requires { LeftFits left × Buffers rows.now words.now page.old.out.now × (page.old.at ≡ 0) }
    ensures result_after { (s : State) → printed_text s.label page.new.out.now result ≡ left_lines s (left_of rows.now words.now left) }
    ensures printed_fits { PrintedFits result (length page.new.out.now) }
    ensures same_buffer { page.new.out.ghost_name ≡ page.old.out.ghost_name }
{
    match left {
        Left::Nothing => Printed::Nothing,
        Left::Rows(n) => {
            rows_line(page, &rows[..n]);
            Printed::Line(page.at)
        }
        Left::Words(m) => {
            words_line(page, &words[..m]);
            Printed::Line(page.at)
        }
        Left::Both(n, m) => {
            rows_line(page, &rows[..n]);
            let end = page.at;
            words_line(page, &words[..m]);
            Printed::Lines(end, page.at)
        }
        Left::SevenRows(n) => {
            sevens_line(page, b"rows", n);
            Printed::Line(page.at)
        }
        Left::Sevens(n, m) => {
            sevens_line(page, b"rows", n);
            let end = page.at;
            sevens_line(page, b"words", m);
            Printed::Lines(end, page.at)
        }
    }
}

// The same at the beginning of an output buffer.
pub fn show(left: Left, rows: &[u16], words: &[u64], out: &mut [u8]) -> Printed
    requires { LeftFits left × Buffers rows.now words.now out.old }
    ensures result_after { (s : State) → printed_text s.label out.new result ≡ left_lines s (left_of rows.now words.now left) }
    ensures printed_fits { PrintedFits result (length out.new) }
{
    let mut page = Page::new(out);
    show_on(&mut page, left, rows, words)
}

// Writes out a row's tree, with room for so many numbers.
pub fn write(
    numbers: &[u16],
    current: Span,
    row: usize,
    tree: &mut [u16],
    out: &mut [u8],
) -> Printed
    requires { Inside 0 (length numbers.now) current × (length tree.old ≤ 65535) × (most_output ≤ length out.old) }
    ensures result_after { (s : State) → printed_text s.label out.new result ≡ labelled s (written_text (writing_out (stretch numbers.now current) row (untouched (length tree.old)))) }
    ensures printed_fits { PrintedFits result (length out.new) }
{
    tree.fill(7);
    let answer = write_out(&numbers[current.start..current.end], row, tree);
    Printed::Line(writing_line(out, answer, tree))
}
