// The numbered combiners over the values of the lists present. Values and presence stand in two arrays, as the callers keep them: the rules of
// the project ask for sixteen of each, on no heap.

#![tactic(auto)]

ghost use Rattle.std.specs.Prelude.{◌≡◌, ◌≤◌, min, ℤ, List, length, count_by};
ghost use Rattle.many_way_rules.specs.Combiners as rules;
ghost use Rattle.slots.specs.Slots.{slots_of, slots_with, values_of};
ghost use Rattle.combine.specs.Figures.{Summed, Numbered, mirrored, weight, utmost};

use rules::MAX_LISTS;

// The lowest price.
const LOWEST: i32 = i32::MIN;

// The combiner with a number, the C interface's and the file's, over the values present in the places of the lists: there are sixteen. No
// other number has one.
pub fn combine(combiner: u8, lists: usize, current: &[i32; 16], present: &[bool; 16]) -> Option<i64>
    ensures { result ≡ rules.combine combiner (values_of (min lists 16) (slots_of current.now present.now)) }
{
    let places = lists.min(MAX_LISTS);
    match combiner {
        1 => Some(sum(places, current, present)),
        2 => Some(utmost::<false>(places, current, present)),
        3 => Some(utmost::<true>(places, current, present)),
        4 => Some(count(places, present)),
        5 => Some(mean(places, current, present)),
        _ => None,
    }
}

fn sum(places: usize, current: &[i32; 16], present: &[bool; 16]) -> i64
    requires { places ≤ 16 }
    ensures { Summed places (slots_of current.now present.now) result }
{
    let mut total = 0;
    for i in 0..places {
        if present[i] {
            total += i64::from(current[i]);
        }
    }
    total
}

// The largest value, or the least: that whose mirror image is the largest. It goes over the places without a branch.
fn utmost<const LEAST: bool>(places: usize, current: &[i32; 16], present: &[bool; 16]) -> i64
    requires { places ≤ 16 }
    ensures { result ≡ utmost LEAST (values_of places (slots_of current.now present.now)) }
{
    let mut best = LOWEST;
    for i in 0..places {
        best = best.max(weight::<LEAST>(present[i].then_some(current[i])));
    }
    if best <= LOWEST && count(places, present) == 0 {
        return 0;
    }
    i64::from(mirrored::<LEAST>(best))
}

// What a place weighs in the search for the largest: its price, mirrored for the least; nothing weighs less than a place without one.
fn weight<const LEAST: bool>(here: Option<i32>) -> i32
    ensures { result ≡ weight LEAST here }
{
    here.map_or(LOWEST, mirrored::<LEAST>)
}

// A price, or its mirror image: 0 and -1 change places, 1 and -2, and so on, so that larger is less.
fn mirrored<const SO: bool>(price: i32) -> i32
    ensures { result ≡ mirrored SO price }
{
    if SO { -1 - price } else { price }
}

// How many of some places are present. They are added up: with `filter` and `count` the compiler takes a branch at each place.
fn how_many(present: &[bool]) -> usize
    requires { length present.now ≤ 16 }
    ensures { result ≡ count_by (λ here. here) present.now }
{
    present.iter().map(|here| *here as usize).sum()
}

// How many values are present, whatever they are.
fn count(places: usize, present: &[bool; 16]) -> i64
    requires { places ≤ 16 }
    ensures { (current : List ℤ) → Numbered places (slots_with current present) result }
{
    how_many(&present[..places]) as i64
}

// Cut toward zero; 0 where no value is present.
fn mean(places: usize, current: &[i32; 16], present: &[bool; 16]) -> i64
    requires { places ≤ 16 }
    ensures { result ≡ rules.mean (values_of places (slots_of current.now present.now)) }
{
    let n = count(places, present);
    if n == 0 {
        0
    } else {
        sum(places, current, present) / n
    }
}
