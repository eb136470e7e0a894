// Seats: u32, whose key is the number itself.

ghost use Rattle.rules.specs.Lists.{seats};
ghost use Rattle.integer.specs.Widths.{IsSeat, faithful_seats};

use crate::Integer;

impl Integer for u32 {
    ghost width = { seats };

    ghost Is = { IsSeat };

    ghost faithful = { faithful_seats };

    fn least() -> u32 {
        u32::MIN
    }

    fn greatest() -> u32 {
        u32::MAX
    }

    fn key(self) -> u64 {
        self as u64
    }

    fn point(k: u64) -> u32 {
        k as u32
    }

    fn greatest_key() -> u64 {
        u32::MAX as u64
    }

    fn less(self, other: u32) -> bool {
        self < other
    }

    fn same(self, other: u32) -> bool {
        self == other
    }

    fn add_one(self) -> u32 {
        self + 1
    }

    fn sub_one(self) -> u32 {
        self - 1
    }
}
