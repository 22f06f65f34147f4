// The kind of a document: the kinds of the trees that start at each of its places, from the last place to the first, without
// recursion.
#![tactic(auto)]

ghost use Rattle.std.specs.Prelude.{◌≡◌, [], ◌∷◌, ◌++◌, ◌+◌, ◌<◌, ◌≤◌, length};
ghost use Rattle.model.specs.Documents.{document_tree, most_numbers};
ghost use Rattle.model.specs.Kinds.{kind_of, empty_kind};
ghost use Rattle.model.proofs.Laws.Documents.{Document, tree_from};
ghost use Rattle.prepared.specs.Contract.{contract_of};
ghost use Rattle.reading.specs.Ends.{EndsFrom};
ghost use Rattle.document_kinds.specs.Stored.{StoredFrom};

use kinds::{empty_of, kind_of};
use lanes::NODES;
use prepared::Prepared;
use reading::{fill_ends, right_child};
use tables::Symbol;

// The kind of the tree that starts at place i, from the kinds of the trees at later places.
fn kind_of_place(
    prepared: &Prepared,
    numbers: &[u16],
    ends: &[u16],
    kinds: &[[u64; 6]],
    empty: [u64; 6],
    i: usize,
    room: &mut [u64; NODES],
) -> [u64; 6]
    requires ready { Document prepared.now.parts.symbols numbers.now × (i < length numbers.now) }
    requires ends_from { EndsFrom 0 numbers.now ends.now × (length numbers.now ≤ length ends.now) }
    requires empty_value { (empty ≡ empty_kind (contract_of prepared.now) ++ (0 ∷ [])) × StoredFrom (contract_of prepared.now) (i + 1) numbers.now kinds.now }
    ensures { result ≡ kind_of (contract_of prepared.now) (tree_from numbers.now i) ++ (0 ∷ []) }
{
    let symbol = Symbol(numbers[i]);
    if symbol.0 == 0 {
        return empty;
    }
    let left = &kinds[i + 1];
    let right = &kinds[right_child(ends, i)];
    kind_of(prepared, symbol, left, right, room)
}

// Fills in the kind of the tree that starts at each place, where it is known where these trees end.
fn fill_kinds(prepared: &Prepared, numbers: &[u16], ends: &[u16], kinds: &mut [[u64; 6]])
    requires ready { Document prepared.now.parts.symbols numbers.now × (length numbers.now ≤ length kinds.old) }
    requires ends_from { EndsFrom 0 numbers.now ends.now × (length numbers.now ≤ length ends.now) }
    ensures { StoredFrom (contract_of prepared.now) 0 numbers.now kinds.new }
{
    let mut room = [0u64; NODES];
    let empty = empty_of(prepared, &mut room);
    for i in (0..numbers.len()).rev() {
        let kind = kind_of_place(prepared, numbers, ends, kinds, empty, i, &mut room);
        kinds[i] = kind;
    }
}

// The kind of a document's tree, with room for so many places.
fn kind_in_room<const PLACES: usize>(prepared: &Prepared, numbers: &[u16]) -> [u64; 6]
    requires { Document prepared.now.parts.symbols numbers.now × (length numbers.now ≤ PLACES) × (PLACES ≤ most_numbers) }
    ensures { result ≡ kind_of (contract_of prepared.now) (document_tree numbers.now) ++ (0 ∷ []) }
{
    let mut ends = [0u16; PLACES];
    let mut kinds = [[0u64; 6]; PLACES];
    fill_ends(numbers, &mut ends);
    fill_kinds(prepared, numbers, &ends, &mut kinds);
    kinds[0]
}

// The kind of a document's tree. There is room for sixteen numbers or for as many as there may be.
pub fn document_kind(prepared: &Prepared, numbers: &[u16]) -> [u64; 6]
    requires { Document prepared.now.parts.symbols numbers.now }
    ensures { result ≡ kind_of (contract_of prepared.now) (document_tree numbers.now) ++ (0 ∷ []) }
{
    if numbers.len() <= 16 {
        return kind_in_room::<16>(prepared, numbers);
    }
    kind_in_room::<1023>(prepared, numbers)
}
