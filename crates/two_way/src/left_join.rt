// The left join of two lists: the next run that a range of the left covers, with the right's range where there is one.

ghost use Rattle.rules.specs.declared.Pairing.TheVariants.{Left};
ghost use Rattle.two_way.specs.Sides.{two, view};
ghost use Rattle.two_way.specs.Steps.{Ready, Stepped};

use crate::{Cursor, Pair, TwoLists};
use integer::{Integer, key_at};

// The next piece of what is left of the two lists, and what is left then. Once the left is over, the rest of the right is not read.
pub fn next_piece<P: Integer>(lists: TwoLists<P>, cursor: Cursor) -> Option<(Pair, Cursor)>
    requires { let t = two P.width lists in Ready t (view t cursor) }
    ensures { let t = two P.width lists.entry in Stepped t Left (view t cursor) result }
{
    let left = lists.left(cursor)?;
    let left_end = key_at(lists.ends, left.at);
    let mut kept = cursor;
    // No index is counted: each turn goes on from the range that the one before skipped to.
    while let Some(right) = lists.right(kept) {
        let right_end = key_at(lists.ends, right.at);
        if right_end < left.start {
            // Skip right ranges that end before this left range starts.
            kept.right = lists.fresh(lists.starts.len(), right.at + 1);
            continue;
        }
        if left.start < right.start {
            // A left-only prefix, up to the right range's start or the left range's end.
            return Some(lists.emit(
                kept,
                Pair::of_left(left, right.at, left_end.min(right.start - 1)),
            ));
        }
        // The right range covers the left start: the overlap.
        return Some(lists.emit(kept, Pair::of_both(left, right, left_end.min(right_end))));
    }
    // No more right ranges: the whole left range has no right value.
    Some(lists.emit(kept, Pair::of_left(left, kept.right.at, left_end)))
}
