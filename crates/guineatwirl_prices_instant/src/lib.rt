// The prices at many points of lent columns of instants, as a C function.
// In C each width has a function of its own name: an exported function takes no type parameter. Columns come one by one, as C has them.

#![tactic(auto)]

ghost use Rattle.rules.specs.Lists.{instants};
ghost use Rattle.rules.specs.Said.{Said};
ghost use Rattle.rules.specs.Merged as merged;
ghost use Rattle.price.specs.Batch as priced;

use integer::Instant;
use price::Pieces;
use rules::{code, number as number_of};

// An answer's code comes back, and its number is written.
#[unsafe(no_mangle)]
pub extern "C" fn guineatwirl_instant_prices_at(
    start: &[Instant],
    end: &[Instant],
    value: &[i64],
    pieces: usize,
    points: &[Instant],
    out_value: &mut [i64],
    out_presence: &mut [u8],
    number: &mut u64,
) -> u8
    ensures { let c = merged.columns «start».now «end».now «value».now in
        let d = priced.before out_value out_presence in
        let f = priced.after out_value out_presence in
        Said (priced.prices_at instants c pieces points.now d) result number.new f }
{
    let columns = Pieces { start, end, value };
    let rows = columns.prices_at(pieces, points, out_value, out_presence);
    *number = number_of(rows) as u64;
    code(rows)
}
