// The event listing over lent columns of seats as a C function: an answer's code comes back, and its number is written.
// In C each width has a function of its own name: an exported function takes no type parameter. Columns come one by one, as C has them.

#![tactic(auto)]

ghost use Rattle.rules.specs.Lists.{seats, given};
ghost use Rattle.rules.specs.Said.{Said};
ghost use Rattle.rules.specs.Listed as listed;
ghost use Rattle.rules.specs.Outcomes.{listing};

use event_listing::list_events;
use integer::Seat;
use rules::{Lists, code, number as number_of};

#[unsafe(no_mangle)]
pub extern "C" fn guineatwirl_seat_list_events(
    starts: &[Seat],
    ends: &[Seat],
    values: &[i32],
    counts: &[u32],
    out_kind: &mut [u8],
    out_point: &mut [Seat],
    out_list: &mut [u8],
    out_value: &mut [i32],
    number: &mut u64,
) -> u8
    ensures { let c = listed.before out_kind out_point out_list out_value in
        let d = listed.after out_kind out_point out_list out_value in
        Said (listing seats (given starts ends values counts) c) result number.new d }
{
    let lent = Lists {
        starts,
        ends,
        values,
        counts,
    };
    let events = list_events(lent, out_kind, out_point, out_list, out_value);
    *number = number_of(events) as u64;
    code(events)
}
