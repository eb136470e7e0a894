// The inner join of two lists: the next run that a range of both covers.

ghost use Rattle.rules.specs.declared.Pairing.TheVariants.{Inner};
ghost use Rattle.two_way.specs.Sides.{two, view};
ghost use Rattle.two_way.specs.Steps.{Ready, Stepped};

use crate::{Cursor, Pair, TwoLists};
use integer::{Integer, key_at};

// The next piece of what is left of the two lists, and what is left then. Once either is over, the rest of the other is not read.
pub fn next_piece<P: Integer>(lists: TwoLists<P>, cursor: Cursor) -> Option<(Pair, Cursor)>
    requires { let t = two P.width lists in Ready t (view t cursor) }
    ensures { let t = two P.width lists.entry in Stepped t Inner (view t cursor) result }
{
    let mut kept = cursor;
    // No index is counted: each turn goes on from the range that the one before skipped to.
    loop {
        let left = lists.left(kept)?;
        let right = lists.right(kept)?;
        let left_end = key_at(lists.ends, left.at);
        let right_end = key_at(lists.ends, right.at);
        if left_end < right.start {
            kept.left = lists.fresh(lists.middle, left.at + 1);
        } else if right_end < left.start {
            kept.right = lists.fresh(lists.starts.len(), right.at + 1);
        } else {
            return Some(lists.emit(kept, Pair::of_both(left, right, left_end.min(right_end))));
        }
    }
}
