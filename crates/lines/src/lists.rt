// Lists of numbers, each number behind a space.
ghost use Rattle.std.specs.Prelude.{◌≡◌, ℕ, ◌∷◌, ◌++◌, map};
ghost use Rattle.printing.specs.Decimals.{decimal};
ghost use Rattle.printing.specs.Appending.{Appends};
ghost use Rattle.script.specs.Phrases as phrases;
ghost use Rattle.script.specs.Meaning.{spaced};

use printing::pages::Page;

// A number of a list: of 16 bits in rows, of 64 in words.
pub trait Listed: Copy {
    ghost value: { Self → ℕ };

    fn value(self) -> u64
        ensures { result ≡ value self };
}

impl Listed for u16 {
    ghost value = { λ n. n };

    fn value(self) -> u64 {
        u64::from(self)
    }
}

impl Listed for u64 {
    ghost value = { λ n. n };

    fn value(self) -> u64 {
        self
    }
}

// A number behind a space.
pub fn append_behind_space(page: &mut Page, value: u64)
    ensures { Appends page.old page.new (32 ∷ decimal value) }
{
    page.push(b' ');
    page.append_decimal(value);
}

// Numbers.
pub fn append_numbers<N: Listed>(page: &mut Page, numbers: &[N])
    ensures { Appends page.old page.new (spaced (map N.value numbers.now)) }
{
    page.clip();
    for &n in numbers {
        append_behind_space(page, n.value());
    }
}

// What an operation left in its row buffer.
pub fn append_rows(page: &mut Page, rows: &[u16])
    ensures { Appends page.old page.new (phrases.rows ++ spaced rows.now) }
{
    page.append(b"rows");
    append_numbers(page, rows);
}

// What an operation left in its word buffer.
pub fn append_words(page: &mut Page, words: &[u64])
    ensures { Appends page.old page.new (phrases.words ++ spaced words.now) }
{
    page.append(b"words");
    append_numbers(page, words);
}
