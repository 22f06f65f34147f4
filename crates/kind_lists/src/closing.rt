// The end of a check: why the list ends, how many rows stand, and the answer.
ghost use Rattle.std.specs.Prelude.{◌≡◌, ◌<◌};
ghost use Rattle.answers.specs.Numbers.{checked_answer};
ghost use Rattle.kind_lists.specs.Closing.{rows_standing, answer_after};
ghost use Rattle.kind_lists.specs.Outcomes.{stop_after};

use crate::{ListStop, Stop};
use answers::Checked;

// Why the list ends where offers stop so in the round after this height; all trees up to the height have their kinds in it.
pub fn stop_after(height: usize, stop: Stop) -> ListStop
    ensures { result ≡ stop_after height stop }
{
    match stop {
        Stop::Breaks(row) => ListStop::Breaks(row),
        Stop::Full => ListStop::Full(height),
    }
}

// How many rows stand.
pub fn rows_standing(ended: Result<usize, ListStop>) -> usize
    requires { rows_standing ended < 65536 }
    ensures { result ≡ rows_standing ended }
{
    match ended {
        Ok(count) => count,
        Err(ListStop::Breaks(row)) => row + 1,
        Err(ListStop::Full(_)) => 0,
    }
}

// The answer of a check with this limit.
pub fn answer_after(ended: Result<usize, ListStop>, limit: usize) -> Checked
    ensures { checked_answer result ≡ answer_after limit ended }
{
    match ended {
        Ok(count) => Checked::Pass(count),
        Err(ListStop::Breaks(row)) => Checked::Tree(row),
        Err(ListStop::Full(height)) => Checked::Stopped(limit, height),
    }
}
