// A join's sweep, after JoinSweep of the Rust: the stretches on which the same lists are active with the same values, one after the
// other.

#![tactic(auto)]

ghost use Rattle.std.specs.Prelude.{◌+◌, ◌*◌, ◌≤◌, ◌≡◌, List};
ghost use Rattle.rules.specs.Piece as rules;
ghost use Rattle.rules.specs.Lists.{held, lists};
ghost use Rattle.rules.specs.Sweep.{events};
ghost use Rattle.rules.specs.Refusals.{Formed};
ghost use Rattle.rules.specs.declared.Kind.{Kind};
ghost use Rattle.multiway_sweep.specs.Steps.{reads, whole};
ghost use Rattle.multiway_sweep.specs.Sweeps.{NewSweep};
ghost use Rattle.join_sweep.specs.Stretches.{next_of, end_of, EndsWith, StartsWith, Busy, Begun, BegunAfter, Ahead, Reached};
ghost use Rattle.join_sweep.specs.Stretches.{Ready, Joining, Stands, Opened, Finds, Same};

use integer::Integer;
use multiway_sweep::{Event, Range, SweepMut};
use rules::Lists;

// A join's sweep, but for its arrays: the event that is held back, how many lists are active, and where the last stretch ended.
#[derive(Clone, Copy)]
pub struct JoinSweep {
    pub held: Option<Event>,
    // How many lists are present, kept by what starts and ends: counting them anew for each stretch takes sixteen looks.
    pub active_count: usize,
    pub last_end: Option<u64>,
}

impl JoinSweep {
    // The list whose range ended with the last stretch, where that is the held event.
    pub fn ending(&self) -> Option<usize>
        ensures { EndsWith self.now.held self.now.last_end result }
    {
        let Some(Event::End(at, list)) = self.held else {
            return None;
        };
        if self.last_end == Some(at) {
            Some(list)
        } else {
            None
        }
    }

    // The list whose range starts at a point, with its value, where that is the held event.
    pub fn starting(&self, start: u64) -> Option<(usize, i32)>
        ensures { StartsWith self.now.held start result }
    {
        let Some(Event::Start(range, list, value)) = self.held else {
            return None;
        };
        if range.start == start {
            Some((list, value))
        } else {
            None
        }
    }

    // With nothing active, a stretch begins at the next range's start; else at the first point after the last one.
    fn begin_from(&self, from: u64) -> Option<u64>
        ensures { Begun self.now from result }
    {
        if 0 < self.active_count {
            return Some(from);
        }
        let Some(Event::Start(range, _, _)) = self.held else {
            return None;
        };
        Some(range.start)
    }

    // Where the stretch after the last one begins. Every range ends at or before the greatest point, so nothing can follow it.
    pub fn begin_after(&self, greatest: u64) -> Option<u64>
        requires { next_of self.now ≤ greatest + 1 }
        ensures { BegunAfter self.now greatest result }
    {
        let Some(end) = self.last_end else {
            return self.begin_from(0);
        };
        if end < greatest {
            return self.begin_from(end + 1);
        }
        None
    }

    // A stretch runs to the next event: an end, or just before a start.
    pub fn reach(&self, start: u64) -> u64
        requires { Ahead start self.now.held }
        ensures { Reached self.now.held result }
    {
        match self.held {
            Some(Event::Start(range, _, _)) => range.start - 1,
            Some(Event::End(at, _)) => at,
            None => start,
        }
    }
}

// The same with the sweep of whose events one is held back, and with what the lists have on the last stretch, in sixteen places that are
// lent.
#[derive(Drop)]
pub struct JoinSweepMut<'a> {
    pub sweep: SweepMut<'a>,
    pub state: JoinSweep,
    // Two arrays, as the combiners read them.
    pub current: &'a mut [i32; 16],
    pub present: &'a mut [bool; 16],
}

impl<'a> JoinSweepMut<'a> {
    // The join's sweep of a sweep over the lists, before the first stretch, whatever stands in the places.
    pub fn new<P: Integer>(
        lent: Lists<P>,
        sweep: SweepMut<'a>,
        current: &'a mut [i32; 16],
        present: &'a mut [bool; 16],
    ) -> JoinSweepMut<'a>
        requires formed { (k : Kind) × Formed P.width k (held lent) }
        requires new { NewSweep P.width (held lent) (whole sweep) }
        ensures ready { let l = held lent.entry in Ready P.width (reads l) result (events (lists P.width l)) }
        ensures same { Same (record { sweep = sweep.entry; state = result.state; current = current.entry; present = present.entry }) result }
    {
        let mut sweep = sweep;
        let held = sweep.step(lent);
        *current = [0; 16];
        *present = [false; 16];
        JoinSweepMut {
            sweep,
            state: JoinSweep {
                held,
                active_count: 0,
                last_end: None,
            },
            current,
            present,
        }
    }

    // Advances to the next stretch: what ended with the last one is deactivated, what starts here is activated, and the stretch runs to
    // the next event. The places then hold what the lists have on it.
    pub fn next_stretch<P: Integer>(&mut self, lent: Lists<P>) -> Option<Range>
        requires stands { Stands P.width (reads (held lent)) self.old (end_of self.old.state) }
        requires within { next_of self.old.state ≤ P.width.points }
        ensures finds { (ls : List (List rules.Range)) → Joining P.width (reads (held lent.entry)) ls self.old (end_of self.old.state) →
            Finds P.width (reads (held lent.entry)) ls (next_of self.old.state) self.new result }
        ensures same { Same self.old self.new }
    {
        self.close(lent);
        let start = self.state.begin_after(P::greatest_key())?;
        self.open(start, lent);
        let end = self.state.reach(start);
        self.state.last_end = Some(end);
        Some(Range { start, end })
    }

    // Deactivates what ended with the last stretch.
    fn close<P: Integer>(&mut self, lent: Lists<P>)
        requires { Stands P.width (reads (held lent)) self.old (end_of self.old.state) }
        ensures closed { (ls : List (List rules.Range)) → Joining P.width (reads (held lent.entry)) ls self.old (end_of self.old.state) →
            Joining P.width (reads (held lent.entry)) ls self.new (2 * next_of self.new.state) }
        ensures end { self.new.state.last_end ≡ self.old.state.last_end }
        ensures same { Same self.old self.new }
    {
        while let Some(list) = self.state.ending() {
            self.present[list] = false;
            self.state.active_count -= 1;
            self.state.held = self.sweep.step(lent);
        }
    }

    // Activates what starts at a point.
    fn open<P: Integer>(&mut self, start: u64, lent: Lists<P>)
        requires busy { Busy start self.old.state }
        requires stands { Stands P.width (reads (held lent)) self.old (2 * start) }
        ensures opened { (ls : List (List rules.Range)) → Joining P.width (reads (held lent.entry)) ls self.old (2 * start) →
            Opened P.width (reads (held lent.entry)) ls self.new start }
        ensures same { Same self.old self.new }
    {
        while let Some((list, value)) = self.state.starting(start) {
            self.current[list] = value;
            self.present[list] = true;
            self.state.active_count += 1;
            self.state.held = self.sweep.step(lent);
        }
    }
}
