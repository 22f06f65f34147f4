// The slots: where a kind enters them, the search for it, and the entry of its row.
ghost use Rattle.std.specs.Prelude.{◌≡◌, ◌+◌, ◌-◌, ◌*◌, ◌%◌, ◌^◌, ◌<◌, ◌≤◌, not, length, slice_index, slice_set};
ghost use Rattle.kind_slots.specs.Stored.{same_kind};
ghost use Rattle.kind_slots.specs.Slots.{kind_sum, weighted_sum, print_of, entry_of, row_of, others_of, is_free, steps_past, slot_of, HalfFree, Searchable};

use crate::stored::same_kind;

// The number of a slot.
#[derive(Clone, Copy, Debug, PartialEq, Eq)]
pub struct Slot(pub usize);

// The two sums of a kind's words.
#[derive(Clone, Copy, Debug, PartialEq, Eq)]
struct Sums {
    plain: u64,
    weighted: u64,
}

// The five words of a kind, added without the carry out of 64 bits, and added with weights: the sum of the sums so far.
fn sums_of(kind: &[u64; 6]) -> Sums
    ensures { (result.plain ≡ kind_sum kind.now) × (result.weighted ≡ weighted_sum kind.now) }
{
    let mut plain: u64 = 0;
    let mut weighted: u64 = 0;
    for &word in &kind[..5] {
        plain = plain.wrapping_add(word);
        weighted = weighted.wrapping_add(plain);
    }
    Sums { plain, weighted }
}

// The fingerprint of a kind with this weighted sum.
fn print_of(sum: u64) -> u32
    ensures { result ≡ print_of sum }
{
    let low = (sum % 2039) as u32;
    low + (2047 - low) * 2048
}

// The bits that no entry with this fingerprint has.
fn others_of(print: u32) -> u32
    requires { print < 2 ^ 22 }
    ensures { result ≡ others_of print }
{
    (4194303 - print) * 1024
}

// The slot at a place, where place 1,024 is the first slot again.
fn slot_at(place: usize) -> Slot
    ensures { result.0 ≡ place % 1024 }
{
    Slot(place % 1024)
}

// What a slot has.
fn entry_in(slots: &[u32; 1024], slot: Slot) -> u32
    requires { slot.0 < 1024 }
    ensures { result ≡ slice_index slots.now slot.0 }
{
    slots[slot.0]
}

// The row of an entry.
fn row_of(entry: u32) -> usize
    ensures { result ≡ row_of entry }
{
    (entry % 1024) as usize
}

// Whether the row of an entry has this kind.
fn is_of_kind(words: &[u64], entry: u32, kind: &[u64; 6]) -> bool
    requires { 5 * row_of entry + 5 ≤ length words.now }
    ensures { result ≡ same_kind words.now (row_of entry) kind.now }
{
    same_kind(words, row_of(entry), kind)
}

// The first place from a place on whose slot has none of these bits. No range bounds the walk: a free slot ends it.
fn pass_others(slots: &[u32; 1024], from: usize, others: u32) -> usize
    requires { HalfFree slots.now × (from < 2048) }
    ensures { result ≡ from + steps_past slots.now from others }
{
    let mut place = from;
    while entry_in(slots, slot_at(place)) & others != 0 {
        place += 1;
    }
    place
}

// The slot at which the search for a kind ends: its row is the one of this kind, or it is not occupied. It is a slot in both cases, which a
// caller asks by `is_occupied` and enters by `enter_row`: an enum of the two would be taken apart at once.
pub fn find_slot(words: &[u64], slots: &[u32; 1024], kind: &[u64; 6]) -> Slot
    requires { Searchable words.now slots.now }
    ensures { result.0 ≡ slot_of words.now slots.now kind.now }
{
    let sums = sums_of(kind);
    let others = others_of(print_of(sums.weighted));
    let start = (sums.plain % 1024) as usize;
    let mut place = pass_others(slots, start, others);
    'search: loop {
        let slot = slot_at(place);
        let entry = entry_in(slots, slot);
        if entry == 0 || is_of_kind(words, entry, kind) {
            return slot;
        }
        place = pass_others(slots, place + 1, others);
    }
}

// Whether a row has entered a slot.
pub fn is_occupied(slots: &[u32; 1024], slot: Slot) -> bool
    requires { slot.0 < 1024 }
    ensures { result ≡ not (is_free slots.now slot.0) }
{
    entry_in(slots, slot) != 0
}

// Row j, which has this kind, enters a slot.
pub fn enter_row(slots: &mut [u32; 1024], slot: Slot, kind: &[u64; 6], j: usize)
    requires { (slot.0 < 1024) × (j < 512) }
    ensures { slots.new ≡ slice_set slots.old slot.0 (entry_of kind.now j) }
{
    let print = print_of(sums_of(kind).weighted);
    slots[slot.0] = print * 1024 + j as u32;
}
