// The two-way inner join over lent columns of instants as a C function: an answer's code comes back, and its number is written.
// In C each width has a function of its own name: an exported function takes no type parameter. Columns come one by one, as C has them.

#![tactic(auto)]

ghost use Rattle.rules.specs.Lists.{instants, given};
ghost use Rattle.rules.specs.Said.{Said};
ghost use Rattle.rules.specs.Paired as paired;
ghost use Rattle.rules.specs.Outcomes.{pairing};
ghost use Rattle.rules.specs.declared.Pairing.TheVariants.{Inner};

use integer::Instant;
use rules::{Lists, code, number as number_of};
use two_way_join::inner_join;

#[unsafe(no_mangle)]
pub extern "C" fn guineatwirl_instant_two_way_inner_join(
    starts: &[Instant],
    ends: &[Instant],
    values: &[i32],
    counts: &[u32],
    out_start: &mut [Instant],
    out_end: &mut [Instant],
    out_left: &mut [i32],
    out_right: &mut [i32],
    out_presence: &mut [u8],
    number: &mut u64,
) -> u8
    ensures { let c = paired.before out_start out_end out_left out_right out_presence in
        let d = paired.after out_start out_end out_left out_right out_presence in
        Said (pairing instants Inner (given starts ends values counts) c) result number.new d }
{
    let lent = Lists {
        starts,
        ends,
        values,
        counts,
    };
    let inner = inner_join(lent, out_start, out_end, out_left, out_right, out_presence);
    *number = number_of(inner) as u64;
    code(inner)
}
