// The two marks in word 0 of a kind, bits 32 and 33: that its trees have one root, and that it is the empty forest's.
#![tactic(auto)]

ghost use Rattle.std.specs.Prelude.{◌≡◌, ◌*◌, ◌^◌, ◌<◌, ◌≤◌};
ghost use Rattle.foundation.specs.Words.{one_if};
ghost use Rattle.model.specs.Kinds.{root_bit, empty_bit, empty_marks, marks_over, marks_in, with_marks};

// The bits of the two marks.
const ROOT_BIT: u64 = 32;

const EMPTY_BIT: u64 = 33;

// Whether the trees of a kind have one root.
pub fn has_one_root(kind: &[u64; 6]) -> bool
    ensures { result ≡ (marks_in kind.now).one_root }
{
    (kind[0] >> ROOT_BIT) & 1 == 1
}

// Whether a kind is the empty forest's. The two tests are a line each: a third function, of the bit, would be no shorter.
fn is_empty(kind: &[u64; 6]) -> bool
    ensures { result ≡ (marks_in kind.now).is_empty }
{
    (kind[0] >> EMPTY_BIT) & 1 == 1
}

// The mark of the empty forest.
pub fn empty_mark() -> u64
    ensures { result ≡ 2 ^ empty_bit }
{
    1u64 << EMPTY_BIT
}

// The states of the empty forest, with its mark.
#[tactic(auto, unfolding(model::specs::Kinds::with_marks))]
pub fn marked_empty(states: u64) -> u64
    requires { states < 2 ^ root_bit }
    ensures { result ≡ with_marks empty_marks states }
{
    states + empty_mark()
}

// The mark of one root, or 0 without one. The promise bounds it too, so that it can be added.
pub fn root_mark(one_root: bool) -> u64
    ensures { (result ≡ one_if one_root * 2 ^ root_bit) × (result ≤ 2 ^ root_bit) }
{
    u64::from(one_root) << ROOT_BIT
}

// The states of a symbol over two kinds, with its mark: one root, where the right kind is the empty forest's.
#[tactic(auto, unfolding(model::specs::Kinds::with_marks))]
pub fn marked_over(states: u64, right: &[u64; 6]) -> u64
    requires { states < 2 ^ root_bit }
    ensures { result ≡ with_marks (marks_over (marks_in right.now)) states }
{
    let mark = root_mark(is_empty(right));
    states + mark
}
