// The sweep over the starts and ends of the ranges of lists: how it begins, its step where it stands, and the same by value.

#![tactic(auto)]

ghost use Rattle.std.specs.Prelude.{◌≤◌, ◌≡◌, length, None, Some};
ghost use Rattle.rules.specs.Lists.{held, total};
ghost use Rattle.heap.specs.declared.Heap as declared;
ghost use Rattle.multiway_sweep.specs.Steps.{reads, whole, EndFirst, Underway, TakesNext, Due};
ghost use Rattle.multiway_sweep.specs.Sweeps.{Advances, NewSweep, Same};

use heap::{Entry, Heap};
use integer::{Integer, key_at};
use rules::Lists;

#[derive(Clone, Copy, Debug, PartialEq, Eq)]
pub struct Range {
    pub start: u64,
    pub end: u64,
}

// One list's range starts or ends.
#[derive(Clone, Copy, Debug, PartialEq, Eq)]
pub enum Event {
    // The range, its list and its value.
    Start(Range, usize, i32),
    // The last point of the list's active range, and the list.
    End(u64, usize),
}

// Of a list the place of its next range and the place past its last.
#[derive(Clone, Copy)]
pub struct Course {
    pub next: usize,
    pub stop: usize,
}

pub type Courses = [Course; 16];

// Lists of no ranges.
pub const NO_COURSES: Courses = [Course { next: 0, stop: 0 }; 16];

// Where a sweep stands: the courses of the lists, a heap of the starts of the next ranges, and a heap of the ends of the active ones. It is
// the form by value, whose step is `next`; the joins sweep over lent parts.
#[derive(Clone, Copy)]
pub struct Sweep {
    pub courses: Courses,
    pub starts: Heap,
    pub active_ends: Heap,
}

// The same, of parts that are lent. Who sweeps lends three: what is larger than one of them is laid by a call of memset, which takes
// more stack than C callers are promised.
#[derive(Drop)]
pub struct SweepMut<'a> {
    pub courses: &'a mut Courses,
    pub starts: &'a mut Heap,
    pub active_ends: &'a mut Heap,
}

// What a step of a sweep took, if an event was left, and the sweep after it.
#[derive(Clone, Copy)]
pub struct Advance {
    pub taken: Option<Event>,
    pub sweep: Sweep,
}

// Whether the earliest end comes before the next start, where there is one or none: it closes first exactly when it is less.
pub fn end_first(next: Option<Entry>, end: Option<Entry>) -> bool
    ensures { EndFirst next end result }
{
    let Some(end) = end else {
        return false;
    };
    match next {
        Some(start) => end.key < start.key,
        None => true,
    }
}

// Lays the courses of lists and the heap of their first starts; with no range active a sweep stands before all events.
#[inline(always)]
fn fill<P: Integer>(lent: Lists<'_, P>, courses: &mut Courses, starts: &mut Heap)
    requires { (length lent.counts.now ≤ 16) × (total lent.counts.now ≡ length lent.starts.now) }
    ensures { (idle : declared.Heap) → idle.len ≡ 0 →
        NewSweep P.width (held lent.entry) (record { courses = courses.new; starts = starts.new; active_ends = idle }) }
{
    *starts = Heap::new();
    let mut from: usize = 0;
    for k in 0..lent.counts.len() {
        let stop = from + lent.counts[k] as usize;
        courses[k] = Course { next: from, stop };
        if from < stop {
            let key = key_at(lent.starts, from);
            starts.push(Entry { key, list: k as u8 });
        }
        from = stop;
    }
}

impl Sweep {
    // A sweep over lists.
    pub fn new<P: Integer>(lent: Lists<'_, P>) -> Sweep
        requires { (length lent.counts.now ≤ 16) × (total lent.counts.now ≡ length lent.starts.now) }
        ensures { NewSweep P.width (held lent.entry) result }
    {
        let mut courses = NO_COURSES;
        let mut starts = Heap::new();
        fill(lent, &mut courses, &mut starts);
        Sweep {
            courses,
            starts,
            active_ends: Heap::new(),
        }
    }
}

impl<'a> SweepMut<'a> {
    // A sweep over lists, whatever stands in the parts.
    #[inline(always)]
    pub fn new<P: Integer>(
        lent: Lists<'_, P>,
        courses: &'a mut Courses,
        starts: &'a mut Heap,
        active_ends: &'a mut Heap,
    ) -> SweepMut<'a>
        requires { (length lent.counts.now ≤ 16) × (total lent.counts.now ≡ length lent.starts.now) }
        ensures begins { NewSweep P.width (held lent.entry) (whole result) }
        ensures same { Same (record { courses = courses.entry; starts = starts.entry; active_ends = active_ends.entry }) result }
    {
        fill(lent, courses, starts);
        *active_ends = Heap::new();
        SweepMut {
            courses,
            starts,
            active_ends,
        }
    }

    // The next event. A range that starts becomes active, and its list goes on to the range after it. Inlined, since a caller would
    // else read the event from memory before it is written there.
    #[inline(always)]
    pub fn step<P: Integer>(&mut self, lent: Lists<'_, P>) -> Option<Event>
        requires { Underway P.width (reads (held lent)) (whole self.old) }
        ensures next { TakesNext P.width (reads (held lent.entry)) (whole self.old) (whole self.new) result }
        ensures stays { result ≡ None → whole self.new ≡ whole self.old }
        ensures same { Same self.old self.new }
    {
        if let Some(end) = self.active_ends.top() {
            if end_first(self.starts.top(), Some(end)) {
                self.active_ends.pop();
                return Some(Event::End(end.key, end.list as usize));
            }
        }
        let start = self.starts.top()?;
        Some(self.begin(lent, start))
    }

    // Starts the next range of the list on top of the starts.
    #[inline(always)]
    fn begin<P: Integer>(&mut self, lent: Lists<'_, P>, start: Entry) -> Event
        requires { Due P.width (reads (held lent)) (whole self.old) start }
        ensures next { TakesNext P.width (reads (held lent.entry)) (whole self.old) (whole self.new) (Some result) }
        ensures same { Same self.old self.new }
    {
        let list = start.list as usize;
        let place = self.courses[list].next;
        let after = place + 1;
        let end = key_at(lent.ends, place);
        let value = lent.values[place];
        self.courses[list].next = after;
        self.active_ends.push(Entry {
            key: end,
            list: start.list,
        });
        if after < self.courses[list].stop {
            let key = key_at(lent.starts, after);
            self.starts.replace_top(Entry {
                key,
                list: start.list,
            });
        } else {
            self.starts.pop();
        }
        Event::Start(
            Range {
                start: start.key,
                end,
            },
            list,
            value,
        )
    }
}

// The next event of a sweep, and the sweep after it.
pub fn next<P: Integer>(lent: Lists<'_, P>, sweep: Sweep) -> Advance
    requires { Underway P.width (reads (held lent)) sweep }
    ensures { Advances P.width (reads (held lent.entry)) sweep result }
{
    let mut sweep = sweep;
    let taken = SweepMut {
        courses: &mut sweep.courses,
        starts: &mut sweep.starts,
        active_ends: &mut sweep.active_ends,
    }
    .step(lent);
    Advance { taken, sweep }
}
