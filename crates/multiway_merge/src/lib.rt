// Many-way joins and selections over lent columns, as one operation: refusals, zero lists, room, and the passes over the lists.

#![tactic(auto)]

ghost use Rattle.std.specs.Prelude.{◌≡◌, []};
ghost use Rattle.rules.specs.Lists.{lists, held};
ghost use Rattle.rules.specs.Answer.{leaves};
ghost use Rattle.rules.specs.Merged.{before, after, room, lay};
ghost use Rattle.many_way_rules.specs.Operations.{kind_of, rule_of, merged};
ghost use Rattle.many_way_rules.specs.Outcomes.{merging};
ghost use Rattle.multiway_pass.specs.Passes.{Mergeable};
ghost use Rattle.multiway_pass.specs.Outputs.{columns_of, Same, Puts};
ghost use Rattle.multiway_merge.specs.Zero.{of_none};

use form::judge;
use integer::Integer;
use many_way_rules::{Operation, known};
use multiway_pass::{Output, Piece, pass as join_pass, put, rule_on};
use passes::run;
use rules::{Kind, Lists, Refusal};
use select_pass::pass as selection_pass;

// How an operation is judged: only a join has a combiner.
pub fn kind_of(operation: Operation) -> Kind
    ensures { result ≡ kind_of operation }
{
    match operation {
        Operation::Join(_, combiner) => Kind::Combining(known(combiner)),
        Operation::Select(_, _) => Kind::Selection,
    }
}

// What an operation says of no lists: a selection has none to select.
pub fn rule_on_none(operation: Operation) -> Option<i64>
    ensures { result ≡ rule_of operation [] }
{
    match operation {
        Operation::Join(admission, combiner) => {
            rule_on(admission, combiner, 0, 0, &[0; 16], &[false; 16])
        }
        Operation::Select(_, _) => None,
    }
}

// Zero lists: what an operation says of no lists it says of the whole line.
fn of_none<P: Integer>(
    operation: Operation,
    space: usize,
    out: &mut Output<P>,
) -> Result<usize, Refusal>
    requires { space ≡ room (columns_of out.old) }
    ensures same { Same out.old out.new }
    ensures leaves { leaves result (columns_of out.new) ≡ of_none P.width operation (columns_of out.old) }
{
    let greatest = P::greatest_key();
    let Some(value) = rule_on_none(operation) else {
        return Ok(0);
    };
    if space == 0 {
        return Err(Refusal::NoRoom(1));
    }
    let whole = Piece {
        start: 0,
        end: greatest,
        value,
    };
    Ok(put(true, 0, Some(whole), out))
}

// One pass over the lists: how many pieces there are. They are written where `write` says so, a flag: a closure that writes would hold
// the columns, and its contract would say the same.
fn pass<P: Integer>(operation: Operation, lent: Lists<P>, write: bool, out: &mut Output<P>) -> usize
    requires { Mergeable P.width operation (held lent) write (columns_of out.old) }
    ensures { let xs = merged operation P.width.points (lists P.width (held lent.entry)) in
        Puts (lay P.width) write 0 xs out.old out.new result }
{
    match operation {
        Operation::Join(admission, combiner) => join_pass(admission, combiner, lent, write, out),
        Operation::Select(_, admission) => selection_pass(admission, lent, write, out),
    }
}

// A many-way join or selection of the lists that are lent: what is refused, or all pieces, where there is room for them. The closure holds
// the columns apart: of those in a struct that it held nothing would be known after the passes.
pub fn merge_lists<P: Integer>(
    operation: Operation,
    lent: Lists<P>,
    out_start: &mut [P],
    out_end: &mut [P],
    out_value: &mut [i64],
) -> Result<usize, Refusal>
    ensures { leaves result (after out_start out_end out_value)
        ≡ merging P.width operation (held lent.entry) (before out_start out_end out_value) }
{
    judge(kind_of(operation), lent)?;
    let space = out_start.len().min(out_end.len().min(out_value.len()));
    if lent.counts.is_empty() {
        let mut out = Output {
            start: out_start,
            end: out_end,
            value: out_value,
        };
        return of_none(operation, space, &mut out);
    }
    let mut over = move |write: bool| {
        let mut out = Output {
            start: out_start,
            end: out_end,
            value: out_value,
        };
        pass(operation, lent, write, &mut out)
    };
    run(lent.starts.len(), space, &mut over)
}
