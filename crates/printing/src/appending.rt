// Text put behind text on a page. What finds no room is left out, and the page is then full.
ghost use Rattle.std.specs.Prelude.{◌∷◌, []};
ghost use Rattle.printing.specs.Decimals.{decimal};
ghost use Rattle.printing.specs.Appending.{Appends};

use crate::decimals::to_decimal;
use crate::pages::Page;

impl Page<'_> {
    // No text: a place behind the end becomes the end.
    pub fn clip(&mut self)
        ensures { Appends self.old self.new [] }
    {
        self.at = self.at.min(self.out.len());
    }

    // One byte.
    pub fn push(&mut self, b: u8)
        ensures { Appends self.old self.new (b ∷ []) }
    {
        if self.at < self.out.len() {
            self.out[self.at] = b;
            self.at += 1;
        } else {
            self.at = self.out.len();
        }
    }

    // Bytes.
    #[tactic(auto, using(crate::proofs::Texts::appends_all))]
    pub fn append(&mut self, bytes: &[u8])
        ensures { Appends self.old self.new bytes.now }
    {
        self.clip();
        for &b in bytes {
            self.push(b);
        }
    }

    // A number in decimal.
    pub fn append_decimal(&mut self, value: u64)
        ensures { Appends self.old self.new (decimal value) }
    {
        self.append(to_decimal(value).as_slice());
    }
}
