// The full join of two lists: the next run that a range of either covers.

ghost use Rattle.rules.specs.declared.Pairing.TheVariants.{Full};
ghost use Rattle.two_way.specs.Sides.{two, view};
ghost use Rattle.two_way.specs.Steps.{Ready, Stepped};

use crate::{Cursor, Pair, TwoLists};
use integer::{Integer, key_at};

// The next piece of what is left of the two lists, and what is left then.
pub fn next_piece<P: Integer>(lists: TwoLists<P>, cursor: Cursor) -> Option<(Pair, Cursor)>
    requires { let t = two P.width lists in Ready t (view t cursor) }
    ensures { let t = two P.width lists.entry in Stepped t Full (view t cursor) result }
{
    let step = match (lists.left(cursor), lists.right(cursor)) {
        (Some(left), Some(right)) => {
            let left_end = key_at(lists.ends, left.at);
            let right_end = key_at(lists.ends, right.at);
            if left.start < right.start {
                // Left-only prefix, up to the right range's start or the left range's end.
                lists.emit(
                    cursor,
                    Pair::of_left(left, right.at, left_end.min(right.start - 1)),
                )
            } else if right.start < left.start {
                // Right-only prefix, up to the left range's start or the right range's end.
                lists.emit(
                    cursor,
                    Pair::of_right(left.at, right, right_end.min(left.start - 1)),
                )
            } else {
                // Both start together: the overlap.
                lists.emit(cursor, Pair::of_both(left, right, left_end.min(right_end)))
            }
        }
        (Some(left), None) => lists.emit(
            cursor,
            Pair::of_left(left, cursor.right.at, key_at(lists.ends, left.at)),
        ),
        (None, Some(right)) => lists.emit(
            cursor,
            Pair::of_right(cursor.left.at, right, key_at(lists.ends, right.at)),
        ),
        (None, None) => return None,
    };
    Some(step)
}
