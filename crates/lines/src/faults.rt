// The line of a fault in a script: where it is, what stood there and what was expected.
ghost use Rattle.std.specs.Prelude.{◌≡◌, ◌++◌, suc, take};
ghost use Rattle.lexing.specs.Text.{newlines};
ghost use Rattle.printing.specs.Decimals.{decimal};
ghost use Rattle.printing.specs.Appending.{Appends};
ghost use Rattle.script.specs.Phrases as phrases;
ghost use Rattle.script.specs.Meaning.{expected_text, token_text, standing_text, found_text, fault_line};

use crate::appending::append_one;
use lexing::tokens::count_newlines;
use printing::pages::Page;
use script::spans::{Expected, Fault, Span};

// The line of a place, from 1.
fn line_of(text: &[u8], place: usize) -> usize
    ensures { result ≡ suc (newlines (take place text.now)) }
{
    count_newlines(&text[..place.min(text.len())]) + 1
}

// The line, up to what stood there.
fn append_line(page: &mut Page, line: usize)
    ensures { Appends page.old page.new (phrases.line_of ++ decimal line ++ phrases.found_text) }
{
    append_one(page, b"line ", line);
    page.append(b": found ");
}

// A token, of which only the first bytes are shown where it is long.
fn append_token(page: &mut Page, token: &[u8])
    ensures { Appends page.old page.new (token_text token.now) }
{
    if 32 < token.len() {
        page.append(&token[..32]);
        page.append(b"...");
    } else {
        page.append(token);
    }
}

// What stands at a span: a token, or the end of the script.
fn append_standing(page: &mut Page, text: &[u8], span: Span)
    ensures { Appends page.old page.new (standing_text text.now span) }
{
    if text.len() <= span.start {
        page.append(b"the end of the script");
    } else {
        let end = span.end.min(text.len());
        let start = span.start.min(end);
        append_token(page, &text[start..end]);
    }
}

// What stands there, or that the script goes on behind what is read of it.
fn append_found(page: &mut Page, text: &[u8], fault: Fault)
    ensures { Appends page.old page.new (found_text text.now fault) }
{
    match fault.expected {
        Expected::Statement | Expected::Number | Expected::Name | Expected::Fewer => {
            append_standing(page, text, fault.span);
        }
        Expected::End => {
            append_one(page, b"more than ", 1572864);
            page.append(b" bytes");
        }
    }
}

// What was expected.
fn append_expected(page: &mut Page, expected: Expected)
    ensures { Appends page.old page.new (expected_text expected) }
{
    page.append(match expected {
        Expected::Statement => b"a statement".as_slice(),
        Expected::Number => b"a number from 0 to 65535".as_slice(),
        Expected::Name => b"a name".as_slice(),
        Expected::End => b"the end of the script".as_slice(),
        Expected::Fewer => b"fewer numbers".as_slice(),
    });
}

// The line of a fault.
pub fn append_fault(page: &mut Page, text: &[u8], fault: Fault)
    ensures { Appends page.old page.new (fault_line text.now fault) }
{
    append_line(page, line_of(text, fault.span.start));
    append_found(page, text, fault);
    page.append(b", expected ");
    append_expected(page, fault.expected);
    page.push(b'\n');
}
