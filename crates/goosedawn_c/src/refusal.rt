// A refusal by its number and place, or nothing: what comes back where nothing else does.
ghost use Rattle.std.specs.Prelude.{◌≡◌};
ghost use Rattle.goosedawn_c.specs.Refusals.{told};

use answers::numbered::Refusal;

// A refusal's number and place; both are 0 where nothing is refused, as C has no Option.
#[repr(C)]
#[derive(Clone, Copy, Debug, PartialEq, Eq)]
pub struct Told {
    pub number: usize,
    pub place: usize,
}

// A number and a place, as they are told.
pub fn tell(number: usize, place: usize) -> Told
    ensures { result ≡ told number place }
{
    Told { number, place }
}

impl From<Refusal> for Told {
    ghost from_gives = { λ refusal it. it ≡ told refusal.number refusal.place };

    fn from(refusal: Refusal) -> Told {
        tell(refusal.number, refusal.place)
    }
}
