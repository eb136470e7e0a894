// A sweep that is lent: its step advances it there.

#![tactic(auto)]

ghost use Rattle.rules.specs.Lists.{held};
ghost use Rattle.multiway_sweep.specs.Steps.{reads};
ghost use Rattle.sweep_step.specs.Lent.{Goes, Moves};

use integer::Integer;
use multiway_sweep::{Event, Sweep, next};
use rules::Lists;

// The next event of a sweep, which then stands after it.
pub fn advance<P: Integer>(lent: Lists<'_, P>, sweep: &mut Sweep) -> Option<Event>
    requires { Goes P.width (reads (held lent)) sweep.old }
    ensures { Moves P.width (reads (held lent.entry)) sweep.old result sweep.new }
{
    let went = next(lent, *sweep);
    *sweep = went.sweep;
    went.taken
}
