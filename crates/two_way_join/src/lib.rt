// The two-way joins over lent columns: inner, left and full, each a call of one join by the name that README and C have for it.

#![tactic(auto)]

ghost use Rattle.std.specs.Prelude.{◌≡◌};
ghost use Rattle.rules.specs.Lists.{held};
ghost use Rattle.rules.specs.Answer.{leaves};
ghost use Rattle.rules.specs.Paired.{before, after};
ghost use Rattle.rules.specs.Outcomes.{pairing};
ghost use Rattle.rules.specs.declared.Pairing.TheVariants.{Inner, Left, Full};

use form::judge;
use integer::Integer;
use passes::run;
use rules::{Kind, Lists, Pairing, Refusal};
use two_way_pass::{Columns, pass};

// The join that is asked for: what is refused, or all pieces, where there is room for them. The columns come one by one, and each pass puts
// them together: a closure that holds a lent `Columns` is not covered at the call of `run`, and one that owns it does not tell what it left.
pub fn join_lists<P: Integer>(
    asked: Pairing,
    lent: Lists<P>,
    out_start: &mut [P],
    out_end: &mut [P],
    out_left: &mut [i32],
    out_right: &mut [i32],
    out_presence: &mut [u8],
) -> Result<usize, Refusal>
    ensures { leaves result (after out_start out_end out_left out_right out_presence)
        ≡ pairing P.width asked (held lent.entry) (before out_start out_end out_left out_right out_presence) }
{
    judge(Kind::TwoWay, lent)?;
    let ends = out_start.len().min(out_end.len());
    let sides = out_left.len().min(out_right.len());
    let room = ends.min(sides).min(out_presence.len());
    let mut over = move |write: bool| {
        pass(
            asked,
            lent,
            write,
            &mut Columns {
                start: out_start,
                end: out_end,
                left: out_left,
                right: out_right,
                presence: out_presence,
            },
        )
    };
    run(lent.starts.len(), room, &mut over)
}

// The inner join of two lists: every run that a range of both covers.
pub fn inner_join<P: Integer>(
    lent: Lists<P>,
    out_start: &mut [P],
    out_end: &mut [P],
    out_left: &mut [i32],
    out_right: &mut [i32],
    out_presence: &mut [u8],
) -> Result<usize, Refusal>
    ensures { leaves result (after out_start out_end out_left out_right out_presence)
        ≡ pairing P.width Inner (held lent.entry) (before out_start out_end out_left out_right out_presence) }
{
    join_lists(
        Pairing::Inner,
        lent,
        out_start,
        out_end,
        out_left,
        out_right,
        out_presence,
    )
}

// The left join of two lists: every run that a range of the left covers.
pub fn left_join<P: Integer>(
    lent: Lists<P>,
    out_start: &mut [P],
    out_end: &mut [P],
    out_left: &mut [i32],
    out_right: &mut [i32],
    out_presence: &mut [u8],
) -> Result<usize, Refusal>
    ensures { leaves result (after out_start out_end out_left out_right out_presence)
        ≡ pairing P.width Left (held lent.entry) (before out_start out_end out_left out_right out_presence) }
{
    join_lists(
        Pairing::Left,
        lent,
        out_start,
        out_end,
        out_left,
        out_right,
        out_presence,
    )
}

// The full join of two lists: every run that a range of either covers.
pub fn full_join<P: Integer>(
    lent: Lists<P>,
    out_start: &mut [P],
    out_end: &mut [P],
    out_left: &mut [i32],
    out_right: &mut [i32],
    out_presence: &mut [u8],
) -> Result<usize, Refusal>
    ensures { leaves result (after out_start out_end out_left out_right out_presence)
        ≡ pairing P.width Full (held lent.entry) (before out_start out_end out_left out_right out_presence) }
{
    join_lists(
        Pairing::Full,
        lent,
        out_start,
        out_end,
        out_left,
        out_right,
        out_presence,
    )
}
