// One pass of a many-way join over the stretches of the lists: what the join says of a stretch, a piece that is merged into the one before
// or is not, and the pieces counted, and written where that is asked. A combiner is told by its number, as C hands it over.

#![tactic(auto)]

ghost use Rattle.std.specs.Prelude.{◌<◌, ◌≡◌, List, ℤ};
ghost use Rattle.std.specs.declared.option.Option.{Option};
ghost use Rattle.rules.specs.Piece.{Within};
ghost use Rattle.rules.specs.Runs.{touch};
ghost use Rattle.rules.specs.Same.{eq_ℤ};
ghost use Rattle.rules.specs.Lists.{lists, held};
ghost use Rattle.rules.specs.Merged.{room, lay};
ghost use Rattle.many_way_rules.specs.Selections.{admitted};
ghost use Rattle.many_way_rules.specs.Operations.{rule_of, merged};
ghost use Rattle.many_way_rules.specs.declared.Operation.TheVariants.{Join};
ghost use Rattle.slots.specs.Slots.{active, Counted, slots_of};
ghost use Rattle.join_sweep.specs.Stretches.{places};
ghost use Rattle.multiway_pass.specs.Pieces.{Present, piece_of, waiting, PushedOn};
ghost use Rattle.multiway_pass.specs.Passes.{Puttable, Mergeable};
ghost use Rattle.multiway_pass.specs.Outputs.{columns_of, Puts};

use combine::combine;
use heap::Heap;
use integer::{Integer, put_key};
use join_sweep::JoinSweepMut;
use many_way_rules::Admission;
use multiway_sweep::{NO_COURSES, SweepMut};
use rules::Lists;

#[derive(Clone, Copy, Debug, PartialEq, Eq)]
pub struct Piece {
    pub start: u64,
    pub end: u64,
    pub value: i64,
}

// The piece that is pending then, which may still grow, and what was pending before, where it is done.
#[derive(Clone, Copy, Debug, PartialEq, Eq)]
pub struct Pushed {
    pub pending: Piece,
    pub done: Option<Piece>,
}

// Whether a point is admitted at which so many of the lists are present.
pub fn admits(admission: Admission, lists: usize, how_many: usize) -> bool
    ensures { (os : List (Option ℤ)) → Present lists how_many os → result ≡ admitted admission os }
{
    match admission {
        Admission::Every => how_many == lists,
        Admission::Any => 0 < how_many,
        Admission::Odd => how_many % 2 == 1,
    }
}

// What a join says of a stretch on which the lists have what the places hold, so many of them something: its value there, if it is admitted.
pub fn rule_on(
    admission: Admission,
    combiner: u8,
    lists: usize,
    how_many: usize,
    current: &[i32; 16],
    present: &[bool; 16],
) -> Option<i64>
    requires { Counted lists how_many (slots_of current.now present.now) }
    ensures { result ≡ rule_of (Join admission combiner) (active lists (slots_of current.now present.now)) }
{
    if !admits(admission, lists, how_many) {
        return None;
    }
    combine(combiner, lists, current, present)
}

// The same of the stretch on which a join's sweep stands.
fn rule_of_stretch(
    admission: Admission,
    combiner: u8,
    lists: usize,
    sweep: &JoinSweepMut,
) -> Option<i64>
    requires { Counted lists sweep.now.state.active_count (places sweep.now) }
    ensures { result ≡ rule_of (Join admission combiner) (active lists (places sweep.now)) }
{
    let count = sweep.state.active_count;
    rule_on(
        admission,
        combiner,
        lists,
        count,
        sweep.current,
        sweep.present,
    )
}

// Whether a piece touches the next and has its value. The next starts later, so one can be added to its end.
fn touches(pending: Piece, next: Piece) -> bool
    requires { pending.end < next.start }
    ensures { result ≡ touch eq_ℤ (piece_of pending) (piece_of next) }
{
    (pending.end + 1 == next.start) & (pending.value == next.value)
}

// Merges a piece into the pending one if it touches and is equal; otherwise it is pending itself, and what was pending is done.
pub fn push_merged(pending: Option<Piece>, next: Piece) -> Pushed
    requires { Within 0 next.start (waiting pending) }
    ensures { PushedOn eq_ℤ (waiting pending) (piece_of next) (waiting result.done) (piece_of result.pending) }
{
    match pending {
        Some(piece) if touches(piece, next) => Pushed {
            pending: Piece {
                end: next.end,
                ..piece
            },
            done: None,
        },
        _ => Pushed {
            pending: next,
            done: pending,
        },
    }
}

// The columns that pieces are written to, as they are lent.
#[derive(Drop)]
pub struct Output<'a, P> {
    pub start: &'a mut [P],
    pub end: &'a mut [P],
    pub value: &'a mut [i64],
}

// Writes a piece that is done, if there is one, at a place of the columns, where it is to be written; the place after it. Whether to write
// stays a flag: a closure that writes would have to hold the columns, and be told of under this same contract.
pub fn put<P: Integer>(write: bool, place: usize, done: Option<Piece>, out: &mut Output<P>) -> usize
    requires { Puttable P.width.points (room (columns_of out.old)) write place (waiting done) }
    ensures { Puts (lay P.width) write place (waiting done) out.old out.new result }
{
    let Some(piece) = done else {
        return place;
    };
    if write {
        put_key(out.start, place, piece.start);
        put_key(out.end, place, piece.end);
        out.value[place] = piece.value;
    }
    place + 1
}

// One pass over all stretches: how many pieces there are. They are written where `write` says so, a flag as it is in `put`.
pub fn pass<P: Integer>(
    admission: Admission,
    combiner: u8,
    lent: Lists<P>,
    write: bool,
    out: &mut Output<P>,
) -> usize
    requires { Mergeable P.width (Join admission combiner) (held lent) write (columns_of out.old) }
    ensures { let xs = merged (Join admission combiner) P.width.points (lists P.width (held lent.entry)) in
        Puts (lay P.width) write 0 xs out.old out.new result }
{
    let mut courses = NO_COURSES;
    let mut starts = Heap::new();
    let mut active_ends = Heap::new();
    let events = SweepMut::new(lent, &mut courses, &mut starts, &mut active_ends);
    let mut current = [0; 16];
    let mut present = [false; 16];
    let mut sweep = JoinSweepMut::new(lent, events, &mut current, &mut present);
    let mut pending = None;
    let mut count: usize = 0;
    while let Some(range) = sweep.next_stretch(lent) {
        let value = rule_of_stretch(admission, combiner, lent.counts.len(), &sweep);
        if let Some(value) = value {
            let next = Piece {
                start: range.start,
                end: range.end,
                value,
            };
            let pushed = push_merged(pending, next);
            count = put(write, count, pushed.done, out);
            pending = Some(pushed.pending);
        }
    }
    put(write, count, pending, out)
}
