// The form checker: what is refused before an operation runs.

#![tactic(auto)]

ghost use Rattle.std.specs.Prelude.{◌≡◌, ◌≤◌, length};
ghost use Rattle.rules.specs.Lists.{held, total};
ghost use Rattle.rules.specs.Answer.{judge_range};
ghost use Rattle.form.specs.Shape.{piece, judge_shape, Long, one_list, end_to_end, Looked, Judged};

use integer::{Integer, key_at};
use rules::{Kind, Lists, MAX_LISTS, MAX_RANGES, Refusal};

// A range of a tariff, its points told by their keys.
#[derive(Clone, Copy)]
pub struct Range {
    pub start: u64,
    pub end: u64,
    pub value: i32,
}

impl Range {
    // The range from one point to another, both in it.
    pub fn new<P: Integer>(start: P, end: P, value: i32) -> Range
        ensures { result ≡ record { start = P.width.key start; end = P.width.key end; value = value } }
    {
        Range {
            start: start.key(),
            end: end.key(),
            value,
        }
    }
}

// Judges one range, whose flat index is `place`, after one of its list that ended at `prior`.
pub fn judge_range(prior: Option<u64>, range: Range, place: usize) -> Result<(), Refusal>
    ensures { result ≡ judge_range prior (piece range place) }
{
    if range.end < range.start {
        return Err(Refusal::Backward(place));
    }
    match prior {
        Some(end) if range.start <= end => Err(Refusal::Overlap(place)),
        _ => Ok(()),
    }
}

// The counts added up.
fn add_up(counts: &[u32]) -> usize
    requires { length counts.now ≤ 16 }
    ensures { result ≡ total counts.now }
{
    counts.iter().map(|n| *n as usize).sum()
}

// Judges the number of lists, the lengths of the columns and the combiner.
#[tactic(auto, unfolding(crate::specs::Shape::judge_shape))]
pub fn judge_shape(
    kind: Kind,
    starts: usize,
    ends: usize,
    values: usize,
    counts: &[u32],
) -> Result<(), Refusal>
    ensures { result ≡ judge_shape kind starts ends values counts.now }
{
    if MAX_LISTS < counts.len() {
        return Err(Refusal::TooManyLists);
    }
    if kind == Kind::TwoWay && counts.len() != 2 {
        return Err(Refusal::NotTwoLists);
    }
    if ends != starts || values != starts || add_up(counts) != starts {
        return Err(Refusal::ColumnsDiffer);
    }
    if MAX_RANGES < starts {
        return Err(Refusal::TooManyRanges);
    }
    if kind == Kind::Combining(false) {
        return Err(Refusal::UnknownCombiner);
    }
    Ok(())
}

// The list at places from `from` up to but not `stop`.
fn judge_list<P: Integer>(lent: Lists<P>, from: usize, stop: usize) -> Result<(), Refusal>
    requires { (from ≤ stop) × Long (held lent) stop }
    ensures { Looked P.width (held lent.entry) from stop (one_list P.width (held lent.entry) from stop) result }
{
    let mut prior = None;
    for i in from..stop {
        let range = Range {
            start: key_at(lent.starts, i),
            end: key_at(lent.ends, i),
            value: lent.values[i],
        };
        judge_range(prior, range, i)?;
        prior = Some(range.end);
    }
    Ok(())
}

// Lists that lie end to end.
fn judge_lists<P: Integer>(lent: Lists<P>) -> Result<(), Refusal>
    requires { Long (held lent) (total (held lent).counts) }
    ensures { Looked P.width (held lent.entry) 0 (total (held lent.entry).counts) (end_to_end P.width (held lent.entry)) result }
{
    let mut from: usize = 0;
    for count in lent.counts {
        let stop = from + *count as usize;
        judge_list(lent, from, stop)?;
        from = stop;
    }
    Ok(())
}

// What is refused before an operation runs, for any columns and any counts.
pub fn judge<P: Integer>(kind: Kind, lent: Lists<P>) -> Result<(), Refusal>
    ensures { Judged P.width kind (held lent.entry) result }
{
    judge_shape(
        kind,
        lent.starts.len(),
        lent.ends.len(),
        lent.values.len(),
        lent.counts,
    )?;
    judge_lists(lent)
}
