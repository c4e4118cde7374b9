// The choice between two states.
ghost use Rattle.tb_driver.specs.Candidates.{IsNarrowerOf};
ghost use Rattle.tb_driver.specs.Solved.{AreSmall};

use crate::judge::is_narrower;
use crate::solved::Solved;

/// The narrower of two, the second on a tie.
pub fn narrower(first: Solved, second: Solved) -> Solved
    requires first { AreSmall first.interval }
    requires second { AreSmall second.interval }
    ensures { IsNarrowerOf first second result }
{
    if is_narrower(first.interval, second.interval) {
        first
    } else {
        second
    }
}
