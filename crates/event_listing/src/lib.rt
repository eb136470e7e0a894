// The event listing: every start and end of the lists' ranges, in the order of the sweep, over lent columns.

#![tactic(auto)]

ghost use Rattle.std.specs.Prelude.{◌*◌, ◌^◌, ◌<◌, ◌≡◌};
ghost use Rattle.rules.specs.Lists.{held};
ghost use Rattle.rules.specs.Sweep.{list};
ghost use Rattle.rules.specs.Listed.{before, after};
ghost use Rattle.rules.specs.Outcomes.{listing};
ghost use Rattle.rules.specs.Answer.{leaves};
ghost use Rattle.multiway_sweep.specs.Steps.{event_of};
ghost use Rattle.event_listing.specs.Listing.{RowOf, answer_for, columns_of, Same, Writable, PutRow, Listable, Wrote};

use form::judge;
use heap::Heap;
use integer::{Integer, put_key};
use multiway_sweep::{Event, NO_COURSES, SweepMut};
use rules::{Kind, Lists, Refusal};

// An event as the columns have it, its point told by its key.
#[derive(Clone, Copy)]
pub struct Row {
    pub kind: u8,
    pub key: u64,
    pub list: u8,
    pub value: i32,
}

// The row of an event, its kind as the C interface numbers it: 0 a start, 1 an end, which has no value. It asks that the list is a byte, which `From`
// asks of no one.
pub fn row_of(event: Event) -> Row
    requires { list (event_of event) < 256 }
    ensures { RowOf (event_of event) result }
{
    match event {
        Event::Start(range, list, value) => Row {
            kind: 0,
            key: range.start,
            list: list as u8,
            value,
        },
        Event::End(key, list) => Row {
            kind: 1,
            key,
            list: list as u8,
            value: 0,
        },
    }
}

// The answer where nothing is refused before: two events for each range, if there is room for them.
pub fn answer_for(ranges: usize, room: usize) -> Result<usize, Refusal>
    requires { ranges < 2 ^ 63 }
    ensures { result ≡ answer_for (2 * ranges) room }
{
    let needed = 2 * ranges;
    if needed <= room {
        Ok(needed)
    } else {
        Err(Refusal::NoRoom(needed))
    }
}

// The columns that the events are written to.
#[derive(Drop)]
struct Columns<'a, P> {
    kind: &'a mut [u8],
    point: &'a mut [P],
    list: &'a mut [u8],
    value: &'a mut [i32],
}

// Writes a row at a place of the columns.
fn put_row<P: Integer>(out: &mut Columns<P>, place: usize, row: Row)
    requires { Writable P.width place row (columns_of out.old) }
    ensures put { PutRow P.width place row (columns_of out.old) (columns_of out.new) }
    ensures same { Same out.old out.new }
{
    out.kind[place] = row.kind;
    put_key(out.point, place, row.key);
    out.list[place] = row.list;
    out.value[place] = row.value;
}

// Writes all events at the front of the columns, which have room for them: two for each range.
fn write_events<P: Integer>(lent: Lists<P>, out: &mut Columns<P>)
    requires { Listable P.width (held lent) (columns_of out.old) }
    ensures wrote { Wrote P.width (held lent.entry) (columns_of out.old) (columns_of out.new) }
    ensures same { Same out.old out.new }
{
    let mut courses = NO_COURSES;
    let mut starts = Heap::new();
    let mut active_ends = Heap::new();
    let mut sweep = SweepMut::new(lent, &mut courses, &mut starts, &mut active_ends);
    for place in 0..2 * lent.starts.len() {
        let Some(event) = sweep.step(lent) else {
            unreachable!()
        };
        let row = row_of(event);
        put_row(out, place, row);
    }
}

// The events of the lists: kind (0 a start, 1 an end), point, list, and value (0 for an end).
pub fn list_events<P: Integer>(
    lent: Lists<P>,
    out_kind: &mut [u8],
    out_point: &mut [P],
    out_list: &mut [u8],
    out_value: &mut [i32],
) -> Result<usize, Refusal>
    ensures { let c = before out_kind out_point out_list out_value in
        let d = after out_kind out_point out_list out_value in
        leaves result d ≡ listing P.width (held lent.entry) c }
{
    judge(Kind::Listing, lent)?;
    let room = out_kind
        .len()
        .min(out_point.len())
        .min(out_list.len())
        .min(out_value.len());
    let events = answer_for(lent.starts.len(), room)?;
    let mut out = Columns {
        kind: out_kind,
        point: out_point,
        list: out_list,
        value: out_value,
    };
    write_events(lent, &mut out);
    Ok(events)
}
