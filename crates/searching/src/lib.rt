// The search for the first number that passes a test: one loop for every table.
#![tactic(auto)]

ghost use Rattle.std.specs.Prelude.{◌≡◌, ◌<◌, ℕ, Bool};
ghost use Rattle.foundation.specs.Search.{first_below};

// The first number below n that passes the test, if there is one.
pub fn first_where<F: Fn(usize) -> bool>(n: usize, test: F) -> Option<usize>
    requires { (k : ℕ) → k < n → F.pre test k }
    ensures { (t : ℕ → Bool) → ((k : ℕ) (b : Bool) → k < n → F.post test k b → b ≡ t k) → result ≡ first_below t n }
{
    for k in 0..n {
        if test(k) {
            return Some(k);
        }
    }
    None
}
