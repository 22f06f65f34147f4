// What the examiner refuses, in the numbers and places that C and the pages for callers know it by.
ghost use Rattle.std.specs.Prelude.{◌≡◌, ◌+◌, ◌*◌};
ghost use Rattle.model.specs.Examining.{most_kinds};
ghost use Rattle.examining.specs.Answers.{refusal_verdict};
ghost use Rattle.examining.specs.Numbers.{refusal_for};

use crate::ExaminingRefusal;
use answers::numbered::Refusal;
use closure::KindNumber;
use tables::{Numbered, Symbol};

// The place of a symbol over two kinds.
fn place_of(symbol: Symbol, left: KindNumber, right: KindNumber) -> usize
    ensures { result ≡ (symbol.0 * most_kinds + left.0) * most_kinds + right.0 }
{
    (symbol.number() * 4096 + left.number()) * 4096 + right.number()
}

impl From<ExaminingRefusal> for Refusal {
    ghost from_gives = { λ why refusal. refusal ≡ refusal_for (refusal_verdict why) };

    fn from(why: ExaminingRefusal) -> Refusal {
        let (number, place) = match why {
            ExaminingRefusal::Contract(fault) => return Refusal::from(fault),
            ExaminingRefusal::Length(length) => (70, length),
            ExaminingRefusal::NoEmpty => (71, 0),
            ExaminingRefusal::Open(pair) => (72, place_of(pair.symbol, pair.left, pair.right)),
            ExaminingRefusal::Breaking(kind) => (73, kind.number()),
        };
        Refusal { number, place }
    }
}
