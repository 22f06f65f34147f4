// Goosedawn: reads a script on standard input and prints its answers.
//
// What is read and answered, turn by turn, is `playing`'s and proved there; this program holds the buffers, and writes
// what each turn prints behind its label.
#![tactic(auto)]

ghost use Rattle.std.specs.Prelude.{◌≡◌, ◌≤◌, length, IfOk};
ghost use Rattle.script.specs.Meaning.{most_bytes};
ghost use Rattle.printing.specs.Appending.{Appended};
ghost use Rattle.lines.specs.Help.{help};
ghost use Rattle.playing.specs.Desks.{LabelFits, InOrder};
ghost use Rattle.playing.specs.Printed.{PrintedFits};

use lines::help::append_help;
use playing::desks::{Desk, empty_desk};
use playing::help::asks_help;
use playing::showing::Printed;
use playing::turns::{Turn, play_turn};
use printing::pages::Page;
use script::spans::Span;
use std::io;
use std::io::Read;

// Writes the label of a line.
fn print_label(rt: &impl Print, text: &[u8], label: Option<Span>) -> io::Result<()>
    requires { LabelFits label (length text.now) }
{
    match label {
        None => rt.write_all(b"-"),
        Some(name) => rt.write_all(&text[name.start..name.end]),
    }
}

// Writes what a turn printed.
fn print(
    rt: &impl Print,
    text: &[u8],
    label: Option<Span>,
    printed: Printed,
    out: &[u8],
) -> io::Result<()>
    requires { LabelFits label (length text.now) × PrintedFits printed (length out.now) }
{
    match printed {
        Printed::Nothing => Ok(()),
        Printed::Bare(n) => rt.write_all(&out[..n]),
        Printed::Line(n) => {
            print_label(rt, text, label)?;
            rt.write_all(&out[..n])
        }
        Printed::Lines(n, m) => {
            print_label(rt, text, label)?;
            rt.write_all(&out[..n])?;
            print_label(rt, text, label)?;
            rt.write_all(&out[n..m])
        }
    }
}

// The buffers of a script, each made in a function of its own, so that proofs see its length alone: the row table that a check or a run leaves
// and the numbers of a script's tables; what is lent to the operations; what is printed.
fn number_buffer() -> [u16; 798720] {
    [0; 798720]
}

fn row_buffer() -> [u16; 12288] {
    [0; 12288]
}

fn word_buffer() -> [u64; 2560] {
    [0; 2560]
}

fn tree_buffer() -> [u16; 65535] {
    [0; 65535]
}

fn output_buffer() -> [u8; 1441792] {
    [0; 1441792]
}

// A byte more than is read of a script tells whether it goes on.
fn text_buffer() -> [u8; 1572865] {
    [0; 1572865]
}

// A turn, in buffers of these sizes.
fn next_turn(
    text: &[u8],
    cut: bool,
    at: usize,
    label: Option<Span>,
    desk: Desk,
    numbers: &mut [u16; 798720],
    rows: &mut [u16; 12288],
    words: &mut [u64; 2560],
    tree: &mut [u16; 65535],
    out: &mut [u8; 1441792],
) -> Turn
    requires { InOrder desk × LabelFits label (length text.now) }
    ensures { InOrder result.done.desk × LabelFits result.done.label (length text.now) × PrintedFits result.done.printed (length out.new) }
{
    play_turn(text, cut, at, label, desk, numbers, rows, words, tree, out)
}

// What a turn printed, from a buffer of this size.
fn print_turn(
    rt: &impl Print,
    text: &[u8],
    label: Option<Span>,
    printed: Printed,
    out: &[u8; 1441792],
) -> io::Result<()>
    requires { LabelFits label (length text.now) × PrintedFits printed (length out.now) }
{
    print(rt, text, label, printed, out)
}

// Plays a script: as many turns as it has bytes, and one more, are enough.
fn play(rt: &impl Print, text: &[u8], cut: bool) -> io::Result<()> {
    let mut numbers = number_buffer();
    let mut rows = row_buffer();
    let mut words = word_buffer();
    let mut tree = tree_buffer();
    let mut out = output_buffer();
    let mut label = None;
    let mut desk = empty_desk();
    let mut at = 0;
    for _ in 0..=text.len() {
        let turn = next_turn(
            text,
            cut,
            at,
            label,
            desk,
            &mut numbers,
            &mut rows,
            &mut words,
            &mut tree,
            &mut out,
        );
        label = turn.done.label;
        desk = turn.done.desk;
        print_turn(rt, text, label, turn.done.printed, &out)?;
        match turn.next {
            Some(next) => at = next,
            None => return Ok(()),
        }
    }
    Ok(())
}

// Room for the help text.
fn help_buffer() -> [u8; 4096] {
    [0; 4096]
}

// Puts the help text at the start of a buffer, and returns where it ends.
fn help_page(out: &mut [u8]) -> usize
    ensures { Appended out.old 0 help result out.new }
{
    let mut page = Page::new(out);
    append_help(&mut page);
    page.at
}

// Prints the statements, a line each.
fn print_help(rt: &impl Print) -> io::Result<()> {
    let mut out = help_buffer();
    let end = help_page(&mut out);
    if end <= 4096 {
        rt.write_all(&out[..end])?;
    }
    Ok(())
}

// Answers the script, of which at most so much is read.
fn answer(rt: &impl Print, text: &[u8], cut: bool) -> io::Result<()> {
    if asks_help(text, cut) {
        print_help(rt)
    } else {
        play(rt, text, cut)
    }
}

// The most bytes of a script that are read.
fn most_bytes() -> usize
    ensures { result ≡ most_bytes }
{
    1572864
}

// Fills a buffer as far as there is something to read, and says how many bytes were read. How many come at a time is not known before, so
// this is a `while` loop.
fn read_full(reader: &mut impl Read, buffer: &mut [u8]) -> io::Result<usize>
    ensures { IfOk result (λ got. got ≤ length buffer.new) }
{
    let mut got = 0;
    while got < buffer.len() {
        let more = reader.read(&mut buffer[got..])?;
        if more == 0 {
            return Ok(got);
        }
        got += more;
    }
    Ok(got)
}

fn main(rt: HostRuntime) -> io::Result<()> {
    let most = most_bytes();
    let mut buffer = text_buffer();
    let got = read_full(&mut rt.reader(), &mut buffer)?;
    answer(&rt, &buffer[..got.min(most)], most < got)
}
