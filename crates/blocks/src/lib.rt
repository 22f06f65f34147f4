// Blocks of facts in a kind that is held as six words, the last 0: blocks are read and put at any fact number free of
// branches. A procedure of fewer parameters than the greatest count has narrower lanes than the nodes' words have.
#![tactic(auto)]

ghost use Rattle.std.specs.Prelude.{◌≡◌, ◌+◌, ◌*◌, ◌-◌, ◌^◌, ◌<◌, ◌≤◌, replicate};
ghost use Rattle.model.specs.Admission.{most_facts};
ghost use Rattle.kind_words.specs.Lanes.{Sized};
ghost use Rattle.kind_words.specs.Blocks.{facts_from, widened, narrowed_lane, narrowed, with_block};

use lanes::{lane, up};
use numbering::power;

// A kind of no state and no fact.
pub fn no_facts() -> [u64; 6]
    ensures { result ≡ replicate 6 0 }
{
    [0u64; 6]
}

// The 64 facts from a number on.
#[tactic(auto, unfolding(kind_words::specs::Blocks::facts_from))]
pub fn facts_from(kind: &[u64; 6], number: usize) -> u64
    requires { number < most_facts }
    ensures { result ≡ facts_from kind.now number }
{
    let place = (number % 64) as u64;
    let low = kind[1 + number / 64];
    let high = kind[2 + number / 64];
    (low >> place) | ((high << 1) << (63 - place))
}

// A block of facts joined to those from a number on.
#[tactic(auto, unfolding(kind_words::specs::Blocks::with_block))]
pub fn put_block(kind: &mut [u64; 6], block: u64, number: usize)
    requires { number < most_facts }
    ensures { kind.new ≡ with_block kind.old block number }
{
    let place = (number % 64) as u64;
    let i = 1 + number / 64;
    let j = 2 + number / 64;
    let low = kind[i];
    let high = kind[j];
    kind[i] = low | (block << place);
    kind[j] = high | ((block >> 1) >> (63 - place));
}

// How many assignments a procedure of that many parameters has.
pub fn assignments(states: usize, count: u16) -> u64
    requires { (1 ≤ states) × (states ≤ 4) × (count ≤ 2) }
    ensures { result ≡ states ^ count }
{
    if count == 0 {
        return 1;
    }
    power(states, usize::from(count)) as u64
}

// A lane of ones.
pub fn lane_of_ones(width: u64) -> u64
    requires { width < 64 }
    ensures { result ≡ 2 ^ width - 1 }
{
    up(1, width) - 1
}

// Lanes of `narrow` bits made lanes of `width` bits.
#[tactic(auto, unfolding(kind_words::specs::Blocks::widened))]
pub fn widen(states: usize, width: u64, narrow: u64, word: u64) -> u64
    requires { Sized states width × (0 < narrow) × (narrow ≤ width) }
    ensures { result ≡ widened states width narrow word }
{
    if width == narrow {
        return word;
    }
    let mut wide: u64 = 0;
    for q in 0..states {
        let state = q as u64;
        let ones = lane_of_ones(narrow);
        wide |= up(lane(word, state * narrow, ones), state * width);
    }
    wide
}

// Every `step`-th bit of a word from a place on, as many as a narrow lane has.
pub fn narrow_lane(word: u64, start: u64, step: u64, narrow: u64) -> u64
    requires { (narrow < 64) × (start + narrow * step ≤ 64) × (0 < step) }
    ensures { result ≡ narrowed_lane word start step narrow }
{
    let mut bits: u64 = 0;
    for c in 0..narrow {
        bits |= up(lane(word, start + c * step, 1), c);
    }
    bits
}

// Every `step`-th bit of each lane of `width` bits, as lanes of `narrow` bits.
#[tactic(auto, unfolding(kind_words::specs::Blocks::narrowed))]
pub fn narrow_word(states: usize, width: u64, narrow: u64, step: u64, word: u64) -> u64
    requires { Sized states width × (0 < narrow) × (narrow < 64) × (narrow ≤ width) × (narrow * step ≤ width) × (0 < step) }
    ensures { result ≡ narrowed states width narrow step word }
{
    if narrow == width {
        return word;
    }
    let mut block: u64 = 0;
    for q in 0..states {
        let state = q as u64;
        block |= up(
            narrow_lane(word, state * width, step, narrow),
            state * narrow,
        );
    }
    block
}
