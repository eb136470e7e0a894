// A sweep of any kind of point, lent and drained beside the event listing.

ghost use Rattle.std.specs.Prelude.{◌<◌, ◌≤◌, ◌≡◌, length};
ghost use Rattle.rules.specs.Lists.{held};
ghost use Rattle.rules.specs.Refusals.{Formed};
ghost use Rattle.rules.specs.declared.Kind.TheVariants.{Listing};

use event_listing::list_events;
use form::judge;
use integer::{Integer, key_at};
use multiway_sweep::{Event, Sweep};
use rules::{Kind, Lists, Refusal};
use sweep_step::advance;

// Why a drained sweep does not agree with the listing.
#[derive(Clone, Copy)]
pub enum Unlike {
    // The first place where they differ.
    At(usize),
    // Nothing was listed.
    Refused,
}

impl From<Refusal> for Unlike {
    fn from(_refusal: Refusal) -> Unlike {
        Unlike::Refused
    }
}

// An event as the listing has it, its point told by its key.
#[derive(Clone, Copy, PartialEq, Eq)]
struct Row {
    kind: u8,
    key: u64,
    list: usize,
    amount: i32,
}

impl From<Event> for Row {
    fn from(event: Event) -> Row {
        match event {
            Event::Start(range, list, amount) => Row {
                kind: 0,
                key: range.start,
                list,
                amount,
            },
            Event::End(key, list) => Row {
                kind: 1,
                key,
                list,
                amount: 0,
            },
        }
    }
}

// The columns of the listing.
#[derive(Clone, Copy)]
struct Listed<'a, P> {
    kinds: &'a [u8; 16],
    points: &'a [P],
    lists: &'a [u8; 16],
    amounts: &'a [i32; 16],
}

// The row at a place.
fn row_at<P: Integer>(listed: Listed<'_, P>, place: usize) -> Row
    requires { (place < 16) × (length listed.points.now ≡ 16) }
{
    Row {
        kind: listed.kinds[place],
        key: key_at(listed.points, place),
        list: listed.lists[place] as usize,
        amount: listed.amounts[place],
    }
}

// Drains a sweep beside so many rows: the number of its events, if all are as they are listed.
fn drained<P: Integer>(
    lent: Lists<'_, P>,
    listed: Listed<'_, P>,
    rows: usize,
) -> Result<usize, Unlike>
    requires formed { Formed P.width Listing (held lent) }
    requires few { (rows ≤ 16) × (length listed.points.now ≡ 16) }
{
    let mut sweep = Sweep::new(lent);
    for place in 0..rows {
        match advance(lent, &mut sweep) {
            Some(event) if Row::from(event) == row_at(listed, place) => {}
            _ => return Err(Unlike::At(place)),
        }
    }
    match advance(lent, &mut sweep) {
        None => Ok(rows),
        Some(_) => Err(Unlike::At(rows)),
    }
}

fn compare<P: Integer>(lent: Lists<'_, P>, points: &mut [P]) -> Result<usize, Unlike>
    requires { length points.old ≡ 16 }
{
    judge(Kind::Listing, lent)?;
    let mut kinds = [0u8; 16];
    let mut lists = [0u8; 16];
    let mut amounts = [0i32; 16];
    let rows = list_events(lent, &mut kinds, points, &mut lists, &mut amounts)?;
    if 16 < rows {
        return Err(Unlike::Refused);
    }
    let listed = Listed {
        kinds: &kinds,
        points,
        lists: &lists,
        amounts: &amounts,
    };
    drained(lent, listed, rows)
}

// Ranges, the first of which starts at the least point, and the last of which ends at the greatest.
const STARTS: [u8; 8] = [0, 5, 20, 3, 6, 0, 4, 9];

const ENDS: [u8; 8] = [4, 9, 29, 5, 25, 0, 4, 9];

const VALUES: [i32; 8] = [10, -20, 30, 40, -50, 60, 0, -80];

// The first n of the ranges, in lists that the counts tell. The columns have room for the ranges, and for the points of the listing.
pub fn compared<P: Integer + From<u8>>(
    counts: &[u32],
    n: usize,
    starts: &mut [P],
    ends: &mut [P],
    points: &mut [P],
) -> Result<usize, Unlike>
    requires ranges { (n ≤ 8) × (length starts.old ≡ 8) × (length ends.old ≡ 8) }
    requires room { length points.old ≡ 16 }
{
    for k in 0..8 {
        starts[k] = P::from(STARTS[k]);
        ends[k] = P::from(ENDS[k]);
    }
    starts[0] = P::least();
    ends[7] = P::greatest();
    let lent = Lists {
        starts: &starts[..n],
        ends: &ends[..n],
        values: &VALUES[..n],
        counts,
    };
    compare(lent, points)
}
