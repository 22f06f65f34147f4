// Tokens that are numbers.
ghost use Rattle.std.specs.Prelude.{◌≡◌, ◌+◌, ◌*◌, ◌-◌, ◌≤◌, min};
ghost use Rattle.lexing.specs.Numerals.{numeral_of};

// Why a token is no number from 0 to 65535.
#[derive(Clone, Copy, Debug, PartialEq, Eq)]
pub enum NotNumber {
    // Decimal digits, of a value above 65535.
    TooLarge,
    // Not decimal digits alone.
    Word,
}

// A value with one digit more, or 65536 where it is no less.
fn with_digit(value: u32, b: u8) -> u32
    requires { (value ≤ 65536) × (48 ≤ b) }
    ensures { result ≡ min (value * 10 + (b - 48)) 65536 }
{
    (value * 10 + u32::from(b - b'0')).min(65536)
}

// The number that a token is.
#[tactic(auto, using(crate::proofs::Digits::digits))]
pub fn read_numeral(token: &[u8]) -> Result<u16, NotNumber>
    ensures { result ≡ numeral_of token.now }
{
    if token.is_empty() {
        return Err(NotNumber::Word);
    }
    let mut value: u32 = 0;
    for &b in token {
        if !b.is_ascii_digit() {
            return Err(NotNumber::Word);
        }
        value = with_digit(value, b);
    }
    u16::try_from(value).map_err(|_| NotNumber::TooLarge)
}
