// Numbers in decimal.
ghost use Rattle.std.specs.Prelude.{◌≡◌, ◌+◌, ◌%◌, ◌<◌, drop};
ghost use Rattle.printing.specs.Decimals.{decimal};

// Digits at the end of twenty bytes, and the place of the first. Memory is fixed, so they stand in an array that fits the longest number.
#[derive(Clone, Copy)]
pub struct Digits {
    pub bytes: [u8; 20],
    pub first: usize,
    pub ghost within: { first < 20 },
}

impl Digits {
    // The digits alone.
    pub fn as_slice(&self) -> &[u8]
        ensures { result.now ≡ drop self.now.first self.now.bytes }
    {
        &self.bytes[self.first..]
    }
}

fn last_digit(value: u64) -> u8
    ensures { result ≡ 48 + value % 10 }
{
    (48 + value % 10) as u8
}

// The decimal digits of a number. How many there are is not known before, so this is a `while` loop. They are made here and not by std's
// `Display`, which says what it writes only where it writes to a `String`, and that takes a heap.
#[tactic(auto, using(crate::proofs::Columns::columns))]
pub fn to_decimal(value: u64) -> Digits
    ensures { drop result.first result.bytes ≡ decimal value }
{
    let mut bytes = [48u8; 20];
    let mut first = 19;
    let mut rest = value;
    while 10 <= rest {
        bytes[first] = last_digit(rest);
        rest /= 10;
        first -= 1;
    }
    bytes[first] = last_digit(rest);
    Digits { bytes, first }
}
