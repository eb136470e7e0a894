// Instants: i64, whose key is the distance from the least.

ghost use Rattle.rules.specs.Lists.{instants};
ghost use Rattle.integer.specs.Widths.{IsInstant, faithful_instants};

use crate::Integer;

// The key of the point 0.
const ZERO: u64 = 9223372036854775808;

impl Integer for i64 {
    ghost width = { instants };

    ghost Is = { IsInstant };

    ghost faithful = { faithful_instants };

    fn least() -> i64 {
        i64::MIN
    }

    fn greatest() -> i64 {
        i64::MAX
    }

    fn key(self) -> u64 {
        if self < 0 {
            (self - i64::MIN) as u64
        } else {
            self as u64 + ZERO
        }
    }

    fn point(k: u64) -> i64 {
        if k < ZERO {
            k as i64 + i64::MIN
        } else {
            (k - ZERO) as i64
        }
    }

    fn greatest_key() -> u64 {
        u64::MAX
    }

    fn less(self, other: i64) -> bool {
        self < other
    }

    fn same(self, other: i64) -> bool {
        self == other
    }

    fn add_one(self) -> i64 {
        self + 1
    }

    fn sub_one(self) -> i64 {
        self - 1
    }
}
