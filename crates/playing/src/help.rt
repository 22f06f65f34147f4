// Whether a script asks for help.
ghost use Rattle.std.specs.Prelude.{◌≡◌};
ghost use Rattle.script.specs.Meaning.{asks_help};

use lexing::words::same;
use script::spans::next_span;

// Whether `help` is the only word of a script.
pub fn asks_help(text: &[u8], cut: bool) -> bool
    ensures { result ≡ asks_help text.now cut }
{
    let word = next_span(text, 0);
    let behind = next_span(text, word.end);
    if text.len() <= word.start {
        return false;
    }
    let is_help = same(&text[word.start..word.end], b"help");
    !cut && is_help && text.len() <= behind.start
}
