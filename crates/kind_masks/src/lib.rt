// The mask of a contract: the bits of a kind that stand for a state, a mark or a fact.
#![tactic(auto)]

ghost use Rattle.std.specs.Prelude.{◌≡◌, ◌≤◌};
ghost use Rattle.model.proofs.Laws.Masked.{state_mask};
ghost use Rattle.kind_masks.specs.Mask.{ones_from, mask_of};

use blocks::lane_of_ones;
use root_marks::{empty_mark, root_mark};

// A one for each fact from a fact on, of so many: at most 64.
fn ones_from(facts: usize, from: usize) -> u64
    ensures { result ≡ ones_from facts from }
{
    let count = facts.saturating_sub(from);
    if count < 64 {
        lane_of_ones(count as u64)
    } else {
        u64::MAX
    }
}

// A one for each state and for the two marks.
fn states_and_marks(states: usize) -> u64
    requires { states ≤ 32 }
    ensures { result ≡ state_mask states }
{
    lane_of_ones(states as u64) + root_mark(true) + empty_mark()
}

// The bits of a contract with so many input states and facts.
pub fn kind_mask(states: usize, facts: usize) -> [u64; 6]
    requires { states ≤ 32 }
    ensures { result ≡ mask_of states facts }
{
    [
        states_and_marks(states),
        ones_from(facts, 0),
        ones_from(facts, 64),
        ones_from(facts, 128),
        ones_from(facts, 192),
        0,
    ]
}
