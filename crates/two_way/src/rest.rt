// What is left of each of two lists, and a piece taken off both.

ghost use Rattle.std.specs.Prelude.{◌≡◌, ◌≤◌, length};
ghost use Rattle.two_way.specs.Sides.{two, view, here};
ghost use Rattle.two_way.specs.Steps.{Fresh, Begun, Ends, Kept, Covering, Taken};

use crate::{Cursor, Pair, Side, TwoLists};
use integer::{Integer, key_at};

impl<'a, P: Integer> TwoLists<'a, P> {
    // A list from the range at a place on; it stops before the place `stop`.
    pub fn fresh(self, stop: usize, at: usize) -> Side
        requires { stop ≤ length self.starts.now }
        ensures { Fresh P.width self.entry.starts.now stop at result }
    {
        let start = if at < stop {
            key_at(self.starts, at)
        } else {
            0
        };
        Side { at, start }
    }

    // Both lists, from their first ranges on.
    pub fn begin(self) -> Cursor
        requires { self.middle ≤ length self.starts.now }
        ensures { Begun (two P.width self.entry) result }
    {
        let left = self.fresh(self.middle, 0);
        let right = self.fresh(self.starts.len(), self.middle);
        Cursor { left, right }
    }

    // What is left of a list, where it is not over.
    pub fn left(self, cursor: Cursor) -> Option<Side>
        ensures { result ≡ here self.entry.middle cursor.left }
    {
        if cursor.left.at < self.middle {
            Some(cursor.left)
        } else {
            None
        }
    }

    pub fn right(self, cursor: Cursor) -> Option<Side>
        ensures { result ≡ here (length self.entry.starts.now) cursor.right }
    {
        if cursor.right.at < self.starts.len() {
            Some(cursor.right)
        } else {
            None
        }
    }

    // What is kept of a side past the end of a piece: all of it where the piece misses it, else the remainder of its range, or the
    // ranges after.
    fn advance(self, stop: usize, side: Side, taken: Option<usize>, end: u64) -> Side
        requires { Ends self.starts.now self.ends.now stop taken }
        ensures { Kept P.width self.entry.starts.now self.entry.ends.now stop side taken end result }
    {
        let Some(at) = taken else {
            return side;
        };
        if end < key_at(self.ends, at) {
            Side { at, start: end + 1 }
        } else {
            self.fresh(stop, at + 1)
        }
    }

    // A piece, and what is left past it.
    pub fn emit(self, cursor: Cursor, pair: Pair) -> (Pair, Cursor)
        requires { let t = two P.width self in Covering t (view t cursor) pair }
        ensures { let t = two P.width self.entry in Taken t (view t cursor) pair result }
    {
        // The right first: in the other order the left join takes longer.
        let right = self.advance(
            self.starts.len(),
            cursor.right,
            pair.right_place(),
            pair.end,
        );
        let left = self.advance(self.middle, cursor.left, pair.left_place(), pair.end);
        (pair, Cursor { left, right })
    }
}
