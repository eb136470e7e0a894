// What is left of two lists that lie end to end, and the next piece of a two-way join of them. Points are told by their keys.

#![tactic(auto)]

ghost use Rattle.std.specs.Prelude.{◌≡◌};
ghost use Rattle.rules.specs.TwoWay.{presence};
ghost use Rattle.two_way.specs.Sides.{two, view, piece_of, left_place, right_place, sides_of, of_left, of_right, of_both};
ghost use Rattle.two_way.specs.Steps.{Ready, Stepped};

use integer::Integer;
use rules::Pairing;

pub mod full_join;
pub mod inner_join;
pub mod left_join;
mod rest;

// Two lists that lie end to end, in columns: the left at the places below the middle, the right from there on.
#[derive(Clone, Copy)]
pub struct TwoLists<'a, P> {
    pub starts: &'a [P],
    pub ends: &'a [P],
    pub middle: usize,
}

// What is left of a list: its range at a place, from a start on, and the ranges after it. Where the list stops at that place it is over,
// and the start means nothing: an Option in place of such a side makes each step slower.
#[derive(Clone, Copy, Debug, PartialEq, Eq)]
pub struct Side {
    pub at: usize,
    pub start: u64,
}

#[derive(Clone, Copy, Debug, PartialEq, Eq)]
pub struct Cursor {
    pub left: Side,
    pub right: Side,
}

// Which sides a piece has, as its column numbers them: bit 0 is the left, bit 1 the right.
#[derive(Clone, Copy, Debug, PartialEq, Eq)]
pub enum Presence {
    Left = 1,
    Right = 2,
    Both = 3,
}

impl Presence {
    // The sides that a number names: 1 the left alone, 2 the right alone, any other both.
    pub fn of(number: usize) -> Presence
        ensures { result ≡ sides_of number }
    {
        match number {
            1 => Presence::Left,
            2 => Presence::Right,
            _ => Presence::Both,
        }
    }
}

// A piece with the places of the ranges that cover it; a side that it misses has the place of the range that it goes on with. An Option
// for each place makes the left and the full join slower.
#[derive(Clone, Copy, Debug, PartialEq, Eq)]
pub struct Pair {
    pub start: u64,
    pub end: u64,
    pub left: usize,
    pub right: usize,
    pub presence: Presence,
}

impl Pair {
    // A piece that the left alone covers, from where it is up to an end; the same of the right.
    fn of_left(left: Side, right: usize, end: u64) -> Pair
        ensures { result ≡ of_left left right end }
    {
        Pair {
            start: left.start,
            end,
            left: left.at,
            right,
            presence: Presence::Left,
        }
    }

    fn of_right(left: usize, right: Side, end: u64) -> Pair
        ensures { result ≡ of_right left right end }
    {
        Pair {
            start: right.start,
            end,
            left,
            right: right.at,
            presence: Presence::Right,
        }
    }

    // A piece that both cover, from the farther of their starts on.
    fn of_both(left: Side, right: Side, end: u64) -> Pair
        ensures { result ≡ of_both left right end }
    {
        Pair {
            start: left.start.max(right.start),
            end,
            left: left.at,
            right: right.at,
            presence: Presence::Both,
        }
    }

    // The place of each side's range, where the piece has that side.
    pub fn left_place(self) -> Option<usize>
        ensures { result ≡ left_place self }
    {
        if self.presence == Presence::Right {
            None
        } else {
            Some(self.left)
        }
    }

    pub fn right_place(self) -> Option<usize>
        ensures { result ≡ right_place self }
    {
        if self.presence == Presence::Left {
            None
        } else {
            Some(self.right)
        }
    }

    // Which sides the piece has, as its column tells it.
    pub fn number(self) -> u8
        ensures { result ≡ presence (piece_of self).value }
    {
        self.presence as u8
    }
}

// The next piece of the join that is asked for, and what is left then.
pub fn next_piece<P: Integer>(
    asked: Pairing,
    lists: TwoLists<P>,
    cursor: Cursor,
) -> Option<(Pair, Cursor)>
    requires { let t = two P.width lists in Ready t (view t cursor) }
    ensures { let t = two P.width lists.entry in Stepped t asked (view t cursor) result }
{
    match asked {
        Pairing::Inner => inner_join::next_piece(lists, cursor),
        Pairing::Left => left_join::next_piece(lists, cursor),
        Pairing::Full => full_join::next_piece(lists, cursor),
    }
}
