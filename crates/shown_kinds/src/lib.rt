// The kinds of a list as a mask shows them: the first of those that look the same, and whether one looks so.
//
// A list has at most 4,096 kinds, five words each. Its rows are put in chains, one for each remainder that what the mask shows of them
// leaves: a chain's latest row in front, behind it the one before.
#![tactic(auto)]

ghost use Rattle.std.specs.Prelude.{◌≡◌, suc, ◌+◌, ◌*◌, ◌/◌, ◌<◌, ◌≤◌, length, set};
ghost use Rattle.foundation.specs.Tests.{choose};
ghost use Rattle.shown_kinds.specs.Chains.{remainder_of, shown_at, looks_so, some_looks_so, Behind, EntryOf, Chained, NoRows, in_front, PutInChains};

use kind_slots::stored::{kind_at, same_words};
use lanes::place_at;
use row_marks::shown;

// The most kinds that a list has.
pub const KINDS: usize = 4096;

// For each remainder the front of its chain, and behind these for each row the one before it in its chain: 1 and the row, or 0 for none.
pub const CHAINS: usize = 2 * KINDS;

// Room for chains, and for the numbers of rows.
pub fn room_for_chains() -> [u16; CHAINS] {
    [0u16; CHAINS]
}

pub fn room_for_rows() -> [u16; KINDS] {
    [0u16; KINDS]
}

// The remainder that what a mask shows of a kind leaves. The numbers are such that no two single bits of a kind leave the same.
#[tactic(auto, unfolding(crate::specs::Chains::remainder_of))]
fn remainder_of(seen: &[u64; 6]) -> usize
    ensures { result ≡ remainder_of seen.now }
{
    let sum = seen[0] % 4093
        + seen[1] % 4093 * 1328
        + seen[2] % 4093 * 3884
        + seen[3] % 4093 * 619
        + seen[4] % 4093 * 1619;
    (sum % 4093) as usize
}

// What a mask shows of row k.
fn shown_at(words: &[u64], k: usize, mask: &[u64; 6]) -> [u64; 6]
    requires { 5 * k + 5 ≤ length words.now }
    ensures { result ≡ shown_at words.now mask.now k }
{
    let kind = kind_at(words, k);
    shown(mask, &kind)
}

// Whether row k looks so.
fn looks_so(words: &[u64], k: usize, mask: &[u64; 6], seen: &[u64; 6]) -> bool
    requires { 5 * k + 5 ≤ length words.now }
    ensures { result ≡ looks_so words.now mask.now seen.now k }
{
    let row = shown_at(words, k, mask);
    same_words(&row, seen)
}

// Whether a row of a chain looks so, from an entry on. The chain, and no count, tells the next row.
#[tactic(auto, using(crate::proofs::Latest::reached_row, crate::proofs::Latest::reached_behind, crate::proofs::Latest::reached_end))]
fn is_in_chain(
    words: &[u64],
    mask: &[u64; 6],
    chains: &[u16; CHAINS],
    entry: usize,
    seen: &[u64; 6],
) -> bool
    requires { Behind words.now mask.now entry chains.now × EntryOf words.now mask.now (remainder_of seen.now) entry × (5 * entry ≤ length words.now) × (entry ≤ 4096) }
    ensures { result ≡ some_looks_so words.now mask.now entry seen.now }
{
    let mut next = entry;
    while let Some(k) = next.checked_sub(1) {
        if looks_so(words, k, mask, seen) {
            return true;
        }
        next = place_at(chains, KINDS + k);
    }
    false
}

// Whether a row of the list looks so. The rows, the mask and the chains are an argument each: a caller puts the same rows in chains by one
// mask after another, in one room.
pub fn is_shown(words: &[u64], mask: &[u64; 6], chains: &[u16; CHAINS], seen: &[u64; 6]) -> bool
    requires { Chained words.now mask.now (length words.now / 5) chains.now × (length words.now ≤ 20480) }
    ensures { result ≡ some_looks_so words.now mask.now (length words.now / 5) seen.now }
{
    let front = place_at(chains, remainder_of(seen));
    is_in_chain(words, mask, chains, front, seen)
}

// Puts row k in front of a chain.
fn put_in_front(chains: &mut [u16; CHAINS], remainder: usize, k: usize)
    requires { (remainder < 4096) × (k < 4096) }
    ensures { chains.new ≡ in_front chains.old remainder k }
{
    chains[KINDS + k] = chains[remainder];
    chains[remainder] = (k + 1) as u16;
}

// Chains without rows.
#[tactic(auto, using(crate::proofs::Latest::no_rows))]
fn clear_fronts(chains: &mut [u16; CHAINS])
    requires { length chains.old ≡ 8192 }
    ensures { NoRows 4096 chains.new }
{
    chains[..KINDS].fill(0);
}

// Notes row k behind so many first rows, unless it looks like an earlier row; returns how many they then are.
fn note_first(firsts: &mut [u16; KINDS], found: usize, k: usize, is_old: bool) -> usize
    requires { (found < 4096) × (k < 4096) }
    ensures { (result ≡ choose is_old found (suc found)) × (firsts.new ≡ choose is_old firsts.old (set firsts.old found k)) }
{
    if is_old {
        found
    } else {
        firsts[found] = k as u16;
        found + 1
    }
}

// Puts row k in its chain, behind the rows before it; returns how many first rows there then are.
fn put_row(
    words: &[u64],
    mask: &[u64; 6],
    chains: &mut [u16; CHAINS],
    firsts: &mut [u16; KINDS],
    found: usize,
    k: usize,
) -> usize
    requires { PutInChains words.now mask.now k chains.old firsts.old found × (5 * k + 5 ≤ length words.now) × (k < 4096) }
    ensures { PutInChains words.now mask.now (suc k) chains.new firsts.new result }
{
    let seen = shown_at(words, k, mask);
    let remainder = remainder_of(&seen);
    let front = place_at(chains, remainder);
    let is_old = is_in_chain(words, mask, chains, front, &seen);
    put_in_front(chains, remainder, k);
    note_first(firsts, found, k, is_old)
}

// Puts the rows of a list in chains, by what a mask shows of them. The first of each that look the same go into `firsts`; returns how
// many these are.
pub fn chain_rows(
    words: &[u64],
    mask: &[u64; 6],
    chains: &mut [u16; CHAINS],
    firsts: &mut [u16; KINDS],
) -> usize
    requires { (length words.now ≤ 20480) × (length chains.old ≡ 8192) × (length firsts.old ≡ 4096) }
    ensures { PutInChains words.now mask.now (length words.now / 5) chains.new firsts.new result }
{
    clear_fronts(chains);
    let count = words.len() / 5;
    let mut found: usize = 0;
    for k in 0..count {
        found = put_row(words, mask, chains, firsts, found, k);
    }
    found
}
