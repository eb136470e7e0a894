// The many-way joins and selections over lent columns of seats as C functions: an answer's code comes back, and its number is written.
// In C each width has a function of its own name: an exported function takes no type parameter. Columns come one by one, as C has them.

#![tactic(auto)]

ghost use Rattle.rules.specs.Lists.{seats, given};
ghost use Rattle.rules.specs.Said.{Said};
ghost use Rattle.rules.specs.Merged as merged;
ghost use Rattle.many_way_rules.specs.Operations.{inner, full, union, symmetric_difference};
ghost use Rattle.many_way_rules.specs.Outcomes.{merging};

use integer::Seat;
use multiway::{
    multiway_full_join, multiway_inner_join, multiway_symmetric_difference, multiway_union,
};
use rules::{Lists, code, number as number_of};

#[unsafe(no_mangle)]
pub extern "C" fn guineatwirl_seat_multiway_inner_join(
    combiner: u8,
    starts: &[Seat],
    ends: &[Seat],
    values: &[i32],
    counts: &[u32],
    out_start: &mut [Seat],
    out_end: &mut [Seat],
    out_value: &mut [i64],
    number: &mut u64,
) -> u8
    ensures { let c = merged.before out_start out_end out_value in
        let d = merged.after out_start out_end out_value in
        Said (merging seats (inner combiner) (given starts ends values counts) c) result number.new d }
{
    let lent = Lists {
        starts,
        ends,
        values,
        counts,
    };
    let every = multiway_inner_join(combiner, lent, out_start, out_end, out_value);
    *number = number_of(every) as u64;
    code(every)
}

#[unsafe(no_mangle)]
pub extern "C" fn guineatwirl_seat_multiway_full_join(
    combiner: u8,
    starts: &[Seat],
    ends: &[Seat],
    values: &[i32],
    counts: &[u32],
    out_start: &mut [Seat],
    out_end: &mut [Seat],
    out_value: &mut [i64],
    number: &mut u64,
) -> u8
    ensures { let c = merged.before out_start out_end out_value in
        let d = merged.after out_start out_end out_value in
        Said (merging seats (full combiner) (given starts ends values counts) c) result number.new d }
{
    let lent = Lists {
        starts,
        ends,
        values,
        counts,
    };
    let any = multiway_full_join(combiner, lent, out_start, out_end, out_value);
    *number = number_of(any) as u64;
    code(any)
}

#[unsafe(no_mangle)]
pub extern "C" fn guineatwirl_seat_multiway_union(
    starts: &[Seat],
    ends: &[Seat],
    values: &[i32],
    counts: &[u32],
    out_start: &mut [Seat],
    out_end: &mut [Seat],
    out_value: &mut [i64],
    number: &mut u64,
) -> u8
    ensures { let c = merged.before out_start out_end out_value in
        let d = merged.after out_start out_end out_value in
        Said (merging seats union (given starts ends values counts) c) result number.new d }
{
    let lent = Lists {
        starts,
        ends,
        values,
        counts,
    };
    let picked = multiway_union(lent, out_start, out_end, out_value);
    *number = number_of(picked) as u64;
    code(picked)
}

#[unsafe(no_mangle)]
pub extern "C" fn guineatwirl_seat_multiway_symmetric_difference(
    starts: &[Seat],
    ends: &[Seat],
    values: &[i32],
    counts: &[u32],
    out_start: &mut [Seat],
    out_end: &mut [Seat],
    out_value: &mut [i64],
    number: &mut u64,
) -> u8
    ensures { let c = merged.before out_start out_end out_value in
        let d = merged.after out_start out_end out_value in
        Said (merging seats symmetric_difference (given starts ends values counts) c) result number.new d }
{
    let lent = Lists {
        starts,
        ends,
        values,
        counts,
    };
    let odd = multiway_symmetric_difference(lent, out_start, out_end, out_value);
    *number = number_of(odd) as u64;
    code(odd)
}
