// Kinds in the words of a list, five to a row: read, compared and stored.
ghost use Rattle.std.specs.Prelude.{◌≡◌, ◌+◌, ◌*◌, ◌≤◌, length};
ghost use Rattle.kind_slots.specs.Stored.{same_words, same_kind, with_kind, padded_kind};

// Row j of the words, with a sixth word 0.
pub fn kind_at(words: &[u64], j: usize) -> [u64; 6]
    requires { 5 * j + 5 ≤ length words.now }
    ensures { result ≡ padded_kind words.now j }
{
    let at = 5 * j;
    [
        words[at],
        words[at + 1],
        words[at + 2],
        words[at + 3],
        words[at + 4],
        0,
    ]
}

// Whether two kinds are the same: five tests without a branch. `==` of the two slices was tried, and took an eighth longer.
#[tactic(auto, unfolding(crate::specs::Stored::same_words))]
pub fn same_words(a: &[u64; 6], b: &[u64; 6]) -> bool
    ensures { result ≡ same_words a.now b.now }
{
    ((((a[0] == b[0]) & (a[1] == b[1])) & (a[2] == b[2])) & (a[3] == b[3])) & (a[4] == b[4])
}

// Whether row j has this kind.
pub fn same_kind(words: &[u64], j: usize, kind: &[u64; 6]) -> bool
    requires { 5 * j + 5 ≤ length words.now }
    ensures { result ≡ same_kind words.now j kind.now }
{
    let row = kind_at(words, j);
    same_words(&row, kind)
}

// Row j of the words.
pub fn store_kind(words: &mut [u64], j: usize, kind: &[u64; 6])
    requires { 5 * j + 5 ≤ length words.old }
    ensures { words.new ≡ with_kind words.old j kind.now }
{
    let at = 5 * j;
    words[at] = kind[0];
    words[at + 1] = kind[1];
    words[at + 2] = kind[2];
    words[at + 3] = kind[3];
    words[at + 4] = kind[4];
}
