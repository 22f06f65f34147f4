// Numbers of facts: the powers of the number of output states, and where the facts of a procedure begin.
#![tactic(auto)]

ghost use Rattle.std.specs.Prelude.{◌≡◌, suc, ◌^◌, ◌<◌, ◌≤◌, length};
ghost use Rattle.model.specs.Facts.{offset, fact_total};
ghost use Rattle.numbering.specs.Counts.{SmallCounts};
ghost use Rattle.numbering.specs.Powers.{AllPowers};

use tables::{Numbered, Procedure};

// The table of the powers of O, the number of output states: for each O from 1 to 4, O to the powers 1, 2 and 3.
// It stays a table and is no `pow`: document 01 names it, with one test over all twelve entries.
fn powers() -> [u8; 12]
    ensures { AllPowers result }
{
    [
        1, // 1 ^ 1
        1, // 1 ^ 2
        1, // 1 ^ 3
        2, // 2 ^ 1
        4, // 2 ^ 2
        8, // 2 ^ 3
        3, // 3 ^ 1
        9, // 3 ^ 2
        27, // 3 ^ 3
        4, // 4 ^ 1
        16, // 4 ^ 2
        64, // 4 ^ 3
    ]
}

// `states` to the power `exponent`, read from the table.
pub fn power(states: usize, exponent: usize) -> usize
    requires { (1 ≤ states) × (states ≤ 4) × (1 ≤ exponent) × (exponent ≤ 3) }
    ensures { result ≡ states ^ exponent }
{
    let table = powers();
    usize::from(table[(states - 1) * 3 + (exponent - 1)])
}

// How many facts a procedure of `count` parameters has.
pub fn facts_of(states: usize, count: u16) -> usize
    requires { (1 ≤ states) × (states ≤ 4) × (count ≤ 2) }
    ensures { result ≡ states ^ suc count }
{
    power(states, usize::from(count) + 1)
}

// How many facts there are in all.
#[tactic(auto, using(crate::proofs::Offsets::offset_zero, crate::proofs::Offsets::offset_more, crate::proofs::Offsets::facts_small))]
pub fn fact_total(states: usize, counts: &[u16]) -> usize
    requires { SmallCounts states counts.now }
    ensures { result ≡ fact_total states counts.now }
{
    let mut sum = 0;
    for &count in counts {
        sum += facts_of(states, count);
    }
    sum
}

// Where the facts of a procedure begin: behind those of the procedures before it.
#[tactic(auto, using(crate::proofs::Offsets::total_before, crate::proofs::Offsets::small_before))]
pub fn fact_offset(states: usize, counts: &[u16], procedure: Procedure) -> usize
    requires small_counts { SmallCounts states counts.now }
    requires procedure_in_bounds { procedure.0 < length counts.now }
    ensures { result ≡ offset states counts.now procedure.0 }
{
    fact_total(states, &counts[..procedure.number()])
}
