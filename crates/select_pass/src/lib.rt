// One pass of a selection over the events of the lists, after SweepSelectMap of the Rust: the stretch before an event, what is said of
// it, and what the event changes; the pieces are counted, and written where that is asked.

#![tactic(auto)]

ghost use Rattle.std.specs.Prelude.{◌≡◌, length, Some};
ghost use Rattle.rules.specs.Lists.{lists, held};
ghost use Rattle.rules.specs.Merged.{lay};
ghost use Rattle.many_way_rules.specs.Operations.{merged};
ghost use Rattle.many_way_rules.specs.declared.Pick.TheVariants.{Highest};
ghost use Rattle.many_way_rules.specs.declared.Operation.TheVariants.{Select};
ghost use Rattle.active_lists.specs.Kept.{seen};
ghost use Rattle.multiway_pass.specs.Pieces.{waiting};
ghost use Rattle.multiway_pass.specs.Passes.{Mergeable};
ghost use Rattle.multiway_pass.specs.Outputs.{columns_of, Puts};
ghost use Rattle.select_pass.specs.Stretches.{StretchesTo};
ghost use Rattle.select_pass.specs.Selections.{Blank, Unchanged, Keeps, Says, Emits, Due, Takes};

use active_lists::Active;
use heap::Heap;
use integer::Integer;
use many_way_rules::Admission;
use multiway_pass::{Output, Piece, admits, push_merged, put};
use multiway_sweep::{Event, NO_COURSES, Range, SweepMut};
use rules::Lists;

// What the lists have on the current stretch: their values, and which of them are active; where it starts, while one is.
#[derive(Clone, Copy)]
pub struct Selection {
    pub current: [i32; 16],
    pub active: Active,
    pub stretch_start: Option<u64>,
}

// The stretch before an event: up to an end, or to the point before a start. There is none where it has no point, or no list is active
// on it.
pub fn stretch_before(event: Option<Event>, stretch_start: Option<u64>) -> Option<Range>
    ensures { StretchesTo event stretch_start result }
{
    let start = stretch_start?;
    match event {
        Some(Event::Start(range, _, _)) if start < range.start => Some(Range {
            start,
            end: range.start - 1,
        }),
        Some(Event::End(at, _)) if start <= at => Some(Range { start, end: at }),
        _ => None,
    }
}

// Whether the points are admitted at which so many lists have what is active.
fn keeps(admission: Admission, lists: usize, active: &Active) -> bool
    ensures { Keeps admission lists (seen active.now) result }
{
    match admission {
        Admission::Odd => active.odd(),
        _ => admits(admission, lists, active.how_many()),
    }
}

impl Selection {
    // No list is active.
    pub fn new() -> Selection
        ensures { Blank result }
    {
        Selection {
            current: [0; 16],
            active: Active::idle(),
            stretch_start: None,
        }
    }

    // What a selection says of a stretch: the value of the highest active list, where it is admitted.
    fn highest_value(&mut self, admission: Admission, lists: usize) -> Option<i64>
        ensures same { Unchanged self.old self.new }
        ensures says { Says admission lists self.old result }
    {
        if !keeps(admission, lists, &self.active) {
            return None;
        }
        let list = self.active.highest()?;
        Some(self.current[list] as i64)
    }

    // The piece of a stretch, if it is kept.
    pub fn emit(
        &mut self,
        admission: Admission,
        lists: usize,
        stretch: Option<Range>,
    ) -> Option<Piece>
        ensures same { Unchanged self.old self.new }
        ensures piece { Emits admission lists self.old stretch (waiting result) }
    {
        let range = stretch?;
        let value = self.highest_value(admission, lists)?;
        Some(Piece {
            start: range.start,
            end: range.end,
            value,
        })
    }

    // Takes an event: its list becomes active with a value, or inactive. The next stretch starts there; nothing is added to the
    // greatest point.
    fn apply(&mut self, event: Event, greatest: u64)
        requires { Due self.old (Some event) }
        ensures { Takes (Some event) greatest self.old self.new }
    {
        match event {
            Event::Start(range, list, value) => {
                self.current[list] = value;
                self.active.activate(list);
                self.stretch_start = Some(range.start);
            }
            Event::End(at, list) => {
                self.active.deactivate(list);
                self.stretch_start = if (0 < self.active.how_many()) & (at < greatest) {
                    Some(at + 1)
                } else {
                    None
                };
            }
        }
    }

    // Takes what a step took; where that is nothing, no stretch starts any more.
    pub fn take(&mut self, event: Option<Event>, greatest: u64)
        requires { Due self.old event }
        ensures { Takes event greatest self.old self.new }
    {
        match event {
            Some(event) => self.apply(event, greatest),
            None => self.stretch_start = None,
        }
    }
}

// One pass over all events: how many pieces there are. They are written where `write` says so, a flag as it is in `put`. At each event the
// stretch before it makes a piece, if it is kept, then the event is taken; n ranges have 2n events.
pub fn pass<P: Integer>(
    admission: Admission,
    lent: Lists<P>,
    write: bool,
    out: &mut Output<P>,
) -> usize
    requires { Mergeable P.width (Select Highest admission) (held lent) write (columns_of out.old) }
    ensures { let xs = merged (Select Highest admission) P.width.points (lists P.width (held lent.entry)) in
        Puts (lay P.width) write 0 xs out.old out.new result }
{
    let mut courses = NO_COURSES;
    let mut starts = Heap::new();
    let mut active_ends = Heap::new();
    let mut sweep = SweepMut::new(lent, &mut courses, &mut starts, &mut active_ends);
    let mut selection = Selection::new();
    let mut pending = None;
    let mut count: usize = 0;
    for _ in 0..2 * lent.starts.len() {
        let Some(event) = sweep.step(lent) else {
            break;
        };
        let stretch = stretch_before(Some(event), selection.stretch_start);
        let next = selection.emit(admission, lent.counts.len(), stretch);
        selection.take(Some(event), P::greatest_key());
        if let Some(piece) = next {
            let pushed = push_merged(pending, piece);
            count = put(write, count, pushed.done, out);
            pending = Some(pushed.pending);
        }
    }
    put(write, count, pending, out)
}
