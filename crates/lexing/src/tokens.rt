// Where tokens begin and end, and the line of a place.
ghost use Rattle.std.specs.Prelude.{◌≡◌, ◌≤◌, false, length, drop};
ghost use Rattle.lexing.specs.Text.{comment_after, ending, token_start, token_end, newlines};

// A byte that a token ends before.
fn is_ending(b: u8) -> bool
    ensures { result ≡ ending b }
{
    matches!(b, b' ' | b'\t' | b'\r' | b'\n' | b'#')
}

// Whether a comment goes on behind a byte.
fn goes_on(comment: bool, b: u8) -> bool
    ensures { result ≡ comment_after comment b }
{
    b != b'\n' && (comment || b == b'#')
}

// Where the next token begins, from a place between tokens on, or the end of the text.
#[tactic(auto, using(crate::proofs::Scans::starts))]
pub fn token_start(text: &[u8], at: usize) -> usize
    ensures { result ≡ token_start false at (drop at text.now) }
{
    let mut comment = false;
    for place in at..text.len() {
        let b = text[place];
        if !(comment || is_ending(b)) {
            return place;
        }
        comment = goes_on(comment, b);
    }
    at.max(text.len())
}

// Where the token that begins at a place ends.
#[tactic(auto, using(crate::proofs::Scans::ends))]
pub fn token_end(text: &[u8], at: usize) -> usize
    ensures { result ≡ token_end at (drop at text.now) }
{
    for place in at..text.len() {
        if is_ending(text[place]) {
            return place;
        }
    }
    at.max(text.len())
}

// How many line feeds there are.
#[tactic(auto, unfolding(crate::specs::Text::newlines))]
pub fn count_newlines(text: &[u8]) -> usize
    ensures value { result ≡ newlines text.now }
    ensures most { result ≤ length text.now }
{
    text.iter().filter(|&&b| b == b'\n').count()
}
