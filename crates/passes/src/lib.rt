// Going over the lists once or twice: how many pieces there can be, and what the passes conclude. A flag tells a pass whether it writes:
// a closure that writes would hold the columns, and its contract would say the same.

#![tactic(auto)]

ghost use Rattle.std.specs.Prelude.{◌*◌, ◌-◌, ◌≤◌, ◌≡◌};
ghost use Rattle.passes.specs.Conclusion.{concluded};
ghost use Rattle.passes.specs.Runs.{Runnable, Ran};

use rules::Refusal;

// The most pieces that so many ranges can give: room for them is sure to be enough.
pub fn most(ranges: usize) -> usize
    requires { ranges ≤ 2048 }
    ensures { result ≡ 2 * ranges - 1 }
{
    (2 * ranges).saturating_sub(1)
}

// The answer from a pass that wrote its pieces or only counted them, with room for so many; there is none yet where the next pass writes.
pub fn conclude(wrote: bool, count: usize, room: usize) -> Option<Result<usize, Refusal>>
    ensures { result ≡ concluded wrote count room }
{
    if wrote {
        return Some(Ok(count));
    }
    if room < count {
        return Some(Err(Refusal::NoRoom(count)));
    }
    None
}

// What an operation answers. Its pass tells how many pieces there are, and writes them where it is told to: at once where the room is
// sure to do, else after a pass that counts them.
pub fn run<F: FnMut(bool) -> usize>(
    ranges: usize,
    room: usize,
    pass: &mut F,
) -> Result<usize, Refusal>
    requires few { ranges ≤ 2048 }
    requires runnable { Runnable F.step (2 * ranges - 1) room F.pre pass.now }
    ensures { Ran F.step (2 * ranges - 1) room pass.old pass.new result }
{
    let mut write = most(ranges) <= room;
    // One call in a loop of at most two turns, not two calls: so the compiler puts the pass in its place.
    loop {
        let count = pass(write);
        if let Some(answer) = conclude(write, count, room) {
            return answer;
        }
        write = true;
    }
}
