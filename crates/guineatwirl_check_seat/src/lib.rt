// One list of tariff structs of seats, judged, as a C function: a code comes back, and its number is written.
// In C each width has a function of its own name: an exported function takes no type parameter.

#![tactic(auto)]

ghost use Rattle.std.specs.declared.option.Option.TheVariants.{None};
ghost use Rattle.rules.specs.Answer.{judge_list};
ghost use Rattle.tariffs.specs.Told.{Told};
ghost use Rattle.guineatwirl_check_seat.specs.Pieces.{range, pieces};

use form::Range;
use integer::Seat;
use tariffs::{Ranged, judge_tariffs, tell};

// A tariff, laid out as in C: an exported function takes no struct with a type parameter, so each width has its own.
#[repr(C)]
#[derive(Clone, Copy)]
pub struct Tariff {
    pub start: Seat,
    pub end: Seat,
    pub value: i32,
}

impl Ranged for Tariff {
    ghost range = { range };

    fn range(self) -> Range {
        Range::new(self.start, self.end, self.value)
    }
}

#[unsafe(no_mangle)]
pub extern "C" fn guineatwirl_seat_check_list(list: &[Tariff], number: &mut u64) -> u8
    ensures { Told (judge_list None (pieces list.now)) result number.new }
{
    tell(judge_tariffs(list), number)
}
