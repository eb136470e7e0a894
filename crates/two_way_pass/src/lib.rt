// One pass over all pieces of a two-way join, which counts them, and writes them where it is told to.

#![tactic(auto)]

ghost use Rattle.std.specs.Prelude.{◌≡◌, ◌<◌, length};
ghost use Rattle.rules.specs.Lists.{held};
ghost use Rattle.rules.specs.TwoWay.{side_value};
ghost use Rattle.rules.specs.Refusals.{Formed};
ghost use Rattle.rules.specs.declared.Kind.TheVariants.{TwoWay};
ghost use Rattle.two_way.specs.Steps.{Inside};
ghost use Rattle.two_way_pass.specs.Pairs.{value, two_lists};
ghost use Rattle.two_way_pass.specs.Columns.{behind, Same, Writable, PutPair, Roomy, Passed};

use integer::{Integer, put_key};
use rules::{Lists, Pairing};
use two_way::{Pair, TwoLists, next_piece};

// The value at a place, or 0 for a missing side.
pub fn value_at(values: &[i32], place: Option<usize>) -> i32
    requires { Inside (length values.now) place }
    ensures { result ≡ side_value (value values.now) place }
{
    match place {
        Some(i) => values[i],
        None => 0,
    }
}

// The columns that pieces are written into.
#[derive(Drop)]
pub struct Columns<'a, P> {
    pub start: &'a mut [P],
    pub end: &'a mut [P],
    pub left: &'a mut [i32],
    pub right: &'a mut [i32],
    pub presence: &'a mut [u8],
}

impl<P: Integer> Columns<'_, P> {
    // Writes a piece at a place; values are read here alone.
    fn put(&mut self, values: &[i32], place: usize, pair: Pair)
        requires { Writable P.width values.now place pair (behind self.old) }
        ensures put { PutPair P.width values.now place pair (behind self.old) (behind self.new) }
        ensures same { Same self.old self.new }
    {
        put_key(self.start, place, pair.start);
        put_key(self.end, place, pair.end);
        self.left[place] = value_at(values, pair.left_place());
        self.right[place] = value_at(values, pair.right_place());
        self.presence[place] = pair.number();
    }
}

// The two lists that are lent: the first count tells where the left ends.
fn two_lists<'a, P: Integer>(lent: Lists<'a, P>) -> TwoLists<'a, P>
    requires { 0 < length lent.counts.now }
    ensures { result ≡ two_lists lent.entry }
{
    TwoLists {
        starts: lent.starts,
        ends: lent.ends,
        middle: lent.counts[0] as usize,
    }
}

// All pieces of two lists: how many there are. They are written where `write` says so, a flag: a closure that writes would hold the columns,
// and its contract would say the same.
pub fn pass<P: Integer>(
    asked: Pairing,
    lent: Lists<P>,
    write: bool,
    columns: &mut Columns<P>,
) -> usize
    requires formed { Formed P.width TwoWay (held lent) }
    requires roomy { Roomy P.width asked (held lent) write (behind columns.old) }
    ensures passed { Passed P.width asked (held lent.entry) write (behind columns.old) (behind columns.new) result }
    ensures same { Same columns.old columns.new }
{
    let lists = two_lists(lent);
    let mut cursor = lists.begin();
    // A step goes on from what the one before left, so the pieces are counted as they come: an iterator would need the same count.
    let mut count = 0;
    while let Some((pair, rest)) = next_piece(asked, lists, cursor) {
        if write {
            columns.put(lent.values, count, pair);
        }
        cursor = rest;
        count += 1;
    }
    count
}
