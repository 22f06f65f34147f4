// What a kind says of its trees: whether the contract takes them, and whether they break it. Two words tell it, which are made
// once for a contract, and the mark of one root.
#![tactic(auto)]

ghost use Rattle.std.specs.Prelude.{◌≡◌, ◌+◌, ◌*◌, ◌^◌, ◌<◌, ◌≤◌, length};
ghost use Rattle.foundation.specs.Words.{word, one_if};
ghost use Rattle.breaking.specs.Verdicts.{accepting, taking, mistaken, breaking, marked, VerdictsOf};

use root_marks::has_one_root;

// A bit for each input state that is accepted, and one for each output state that is not.
#[derive(Clone, Copy, Debug, PartialEq, Eq)]
pub struct Verdicts {
    pub accepted: u64,
    pub refused: u64,
}

// A word of bits below a place, with the bit at the place where it is in.
fn with_bit(word: u64, place: usize, is_in: bool) -> u64
    requires { (place < 64) × (word < 2 ^ place) }
    ensures { result ≡ word + one_if is_in * 2 ^ place }
{
    word + (u64::from(is_in) << place as u64)
}

// The states that have this mark, as a word.
fn states_marked(marks: &[u16], mark: u16) -> u64
    requires { length marks.now ≤ 64 }
    ensures { result ≡ marked marks.now mark }
{
    let mut states: u64 = 0;
    for (q, &marked) in marks.iter().enumerate() {
        states = with_bit(states, q, marked == mark);
    }
    states
}

// The two words of a contract, from the accept marks of its types.
pub fn verdicts_of(input_marks: &[u16], output_marks: &[u16]) -> Verdicts
    requires { (length input_marks.now ≤ 64) × (length output_marks.now ≤ 64) }
    ensures { VerdictsOf input_marks.now output_marks.now result }
{
    Verdicts {
        accepted: states_marked(input_marks, 1),
        refused: states_marked(output_marks, 0),
    }
}

// Whether an accepted input state is in a kind. This and the test of facts are a line each, of another word and other states.
fn of_input_type(verdicts: Verdicts, kind: &[u64; 6]) -> bool
    ensures { result ≡ accepting verdicts.accepted kind.now }
{
    kind[0] & verdicts.accepted != 0
}

// Whether the contract takes the trees of a kind: they have one root, and an accepted input state is in the kind.
pub fn is_taken(verdicts: Verdicts, kind: &[u64; 6]) -> bool
    ensures { result ≡ taking verdicts.accepted kind.now }
{
    has_one_root(kind) & of_input_type(verdicts, kind)
}

// Whether a fact of procedure 0 with a state not accepted is in a kind.
pub fn has_wrong_output(verdicts: Verdicts, kind: &[u64; 6]) -> bool
    ensures { result ≡ mistaken verdicts.refused kind.now }
{
    kind[1] & verdicts.refused != 0
}

// Whether a kind breaks the contract.
pub fn breaks(verdicts: Verdicts, kind: &[u64; 6]) -> bool
    ensures { result ≡ breaking verdicts.accepted verdicts.refused kind.now }
{
    is_taken(verdicts, kind) & has_wrong_output(verdicts, kind)
}
