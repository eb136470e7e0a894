// The price at a point of lent columns with pieces, and the prices at many. What looks for a place goes by the starts alone, and takes that
// column alone.

#![tactic(auto)]

ghost use Rattle.std.specs.Prelude.{◌+◌, ◌<◌, ◌≤◌, ◌≡◌, length};
ghost use Rattle.rules.specs.Lists.{keys};
ghost use Rattle.rules.specs.Answer.{leaves};
ghost use Rattle.rules.specs.Merged.{room};
ghost use Rattle.price.specs.Reading.{held, begun, count, halve, found, charge, piece, places, price_at};
ghost use Rattle.price.specs.Batch.{before, after, prices_at};

use integer::{Integer, key_at};
use rules::Refusal;

// Columns with pieces: the start, the end and the value of each.
#[derive(Clone, Copy)]
pub struct Pieces<'a, P> {
    pub start: &'a [P],
    pub end: &'a [P],
    pub value: &'a [i64],
}

// What a piece says of a point, all points told by their keys: its value, or that nothing is on sale.
pub fn charged(start: u64, end: u64, value: i64, point: u64) -> Option<i64>
    ensures { result ≡ charge (record { start = start; end = end; value = value }) point }
{
    if (start <= point) & (point <= end) {
        Some(value)
    } else {
        None
    }
}

// 1 where the start at a place is not beyond the point, else 0.
fn begun<P: Integer>(start: &[P], place: usize, point: u64) -> usize
    requires { place < length start.now }
    ensures { (result ≡ begun (keys P.width start.now) point place) × (result ≤ 1) }
{
    (key_at(start, place) <= point) as usize
}

// How many of the places after one, so many of them, have begun.
#[tactic(auto, unfolding(crate::specs::Reading::count))]
fn count<P: Integer>(start: &[P], base: usize, places: usize, point: u64) -> usize
    requires { base + places < length start.now }
    ensures { (result ≡ count (keys P.width start.now) point base places) × (result ≤ places) }
{
    let mut counted: usize = 0;
    for i in 0..places {
        counted += begun(start, base + (i + 1), point);
    }
    counted
}

// The place to which halving comes while more than so many are left. It is a search, and no count of places. The price of columns that do not ascend is
// what this halving finds, and `partition_point` promises nothing of them.
fn halve<P: Integer>(start: &[P], among: usize, most: usize, point: u64) -> usize
    requires { (0 < most) × (0 < among) × (among ≤ length start.now) }
    ensures { (result ≡ halve (keys P.width start.now) point most among 0 among) × (result < among) }
{
    let mut base: usize = 0;
    let mut size = among;
    while size > most {
        let half = size / 2;
        let middle = base + half;
        base = if key_at(start, middle) <= point {
            middle
        } else {
            base
        };
        size -= half;
    }
    base
}

// The place found among the first starts, 16 or more of them: where they ascend, the last that is not beyond the point.
fn find<P: Integer>(start: &[P], among: usize, point: u64) -> usize
    requires { (16 ≤ among) × (among ≤ length start.now) }
    ensures { (result ≡ found (keys P.width start.now) point among) × (result < among) }
{
    let base = halve(start, among, 16, point).min(among - 16);
    base + count(start, base, 15, point)
}

impl<P: Integer> Pieces<'_, P> {
    // How many places count: those of the first pieces, so many of them, that all three columns have. C hands over that number: with no heap,
    // columns have room for more.
    pub fn places(self, pieces: usize) -> usize
        ensures { result ≡ places (held self.entry) pieces }
    {
        pieces.min(self.start.len().min(self.end.len().min(self.value.len())))
    }

    // What the piece at a place says of the point with a key.
    fn charge(self, place: usize, point: u64) -> Option<i64>
        requires { place < room (held self) }
        ensures { result ≡ charge (piece P.width (held self.entry) place) point }
    {
        charged(
            key_at(self.start, place),
            key_at(self.end, place),
            self.value[place],
            point,
        )
    }

    // The price at the point with a key, of pieces that are few.
    #[tactic(auto, unfolding(crate::specs::Reading::price_at))]
    fn price_of_few(self, pieces: usize, point: u64) -> Option<i64>
        requires { (pieces < 16) × (pieces ≤ room (held self)) }
        ensures { result ≡ price_at P.width (held self.entry) pieces point }
    {
        if pieces == 0 {
            return None;
        }
        let place = halve(self.start, pieces, 1, point);
        self.charge(place, point)
    }

    // The price at the point with a key, of pieces that are many.
    #[tactic(auto, unfolding(crate::specs::Reading::price_at))]
    fn price_of_many(self, pieces: usize, point: u64) -> Option<i64>
        requires { (16 ≤ pieces) × (pieces ≤ room (held self)) }
        ensures { result ≡ price_at P.width (held self.entry) pieces point }
    {
        let place = find(self.start, pieces, point);
        self.charge(place, point)
    }

    // The price at the point with a key. Where all columns have many pieces, a search does not wait for the least of the lengths.
    #[tactic(auto, unfolding(crate::specs::Reading::price_at))]
    fn price_at_key(self, pieces: usize, point: u64) -> Option<i64>
        ensures { result ≡ price_at P.width (held self.entry) pieces point }
    {
        let counted = if (pieces < 16)
            | (self.start.len() < pieces)
            | (self.end.len() < pieces)
            | (self.value.len() < pieces)
        {
            let counted = self.places(pieces);
            if counted < 16 {
                return self.price_of_few(counted, point);
            }
            counted
        } else {
            pieces
        };
        self.price_of_many(counted, point)
    }

    // The price at a point: of the first pieces of the columns, so many of them, what the one that has it says.
    pub fn price_at(self, pieces: usize, point: P) -> Option<i64>
        ensures { result ≡ price_at P.width (held self.entry) pieces (P.width.key point) }
    {
        self.price_at_key(pieces, point.key())
    }

    // The prices at some points, a row for each: its value and 1, or 0 and 0 where nothing is on sale.
    #[tactic(auto, unfolding(crate::specs::Batch::prices_at))]
    pub fn prices_at(
        self,
        pieces: usize,
        points: &[P],
        out_value: &mut [i64],
        out_presence: &mut [u8],
    ) -> Result<usize, Refusal>
        ensures { leaves result (after out_value out_presence)
            ≡ prices_at P.width (held self.entry) pieces points.now (before out_value out_presence) }
    {
        let rows = points.len();
        if out_value.len().min(out_presence.len()) < rows {
            return Err(Refusal::NoRoom(rows));
        }
        for (i, point) in points.iter().enumerate() {
            let price = self.price_at_key(pieces, point.key());
            out_value[i] = price.unwrap_or(0);
            out_presence[i] = price.is_some() as u8;
        }
        Ok(rows)
    }
}
