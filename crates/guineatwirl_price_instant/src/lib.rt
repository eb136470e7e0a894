// The price at a point of lent columns of instants, as a C function.
// In C each width has a function of its own name: an exported function takes no type parameter. Columns come one by one, as C has them.

#![tactic(auto)]

ghost use Rattle.rules.specs.Lists.{instants};
ghost use Rattle.rules.specs.Merged as merged;
ghost use Rattle.price.specs.Reading.{Told, price_at};

use integer::Instant;
use price::Pieces;

// 1 comes back where there is a price, which is written; else 0, and 0 is written.
#[unsafe(no_mangle)]
pub extern "C" fn guineatwirl_instant_price_at(
    start: &[Instant],
    end: &[Instant],
    value: &[i64],
    pieces: usize,
    point: Instant,
    price: &mut i64,
) -> u8
    ensures { Told (price_at instants (merged.columns «start».now «end».now «value».now) pieces (instants.key point)) result price.new }
{
    let found = Pieces { start, end, value }.price_at(pieces, point);
    *price = found.unwrap_or(0);
    found.is_some() as u8
}
