// The head of a tariff file: what its operation does, and what it is refused for.

#![tactic(auto)]

ghost use Rattle.std.specs.Prelude.{◌≡◌};
ghost use Rattle.tariff_file.specs.File.{lists_right, combiner_right};
ghost use Rattle.file_head.specs.Heads.{Judges, Opens};

use file_records::{Rest, big_endian};
use many_way_rules::known;
use rules::MAX_LISTS;
use tariff_file::{Refusal, Task};

// The second byte of a head's mark, and its bytes.
const HEAD: u8 = 0x48;

pub const HEAD_SIZE: usize = 6;

// What a head asks for, its operation and combiner as the numbers that the file gives and a text prints, and how many lists follow.
#[derive(Clone, Copy, Debug, PartialEq, Eq)]
pub struct Head {
    pub task: Task,
    pub operation: u8,
    pub combiner: u8,
    pub lists: usize,
}

// Whether so many lists are asked for.
fn lists_right(task: Task, lists: usize) -> bool
    ensures { result ≡ lists_right task lists }
{
    match task {
        Task::Pair(_) => lists == 2,
        Task::Merge(_) | Task::Choose(_, _) => true,
    }
}

// Whether the combiner is asked for.
fn combiner_right(task: Task, combiner: u8) -> bool
    ensures { result ≡ combiner_right task combiner }
{
    match task {
        Task::Merge(_) => known(combiner),
        Task::Pair(_) | Task::Choose(_, _) => combiner == 0,
    }
}

// What is asked of a head's fields, in its order.
fn judge_head(operation: u8, combiner: u8, lists: usize) -> Result<Task, Refusal>
    ensures { Judges operation combiner lists result }
{
    let Ok(task) = Task::try_from(operation) else {
        return Err(Refusal::UnknownOperation(0));
    };
    if MAX_LISTS < lists {
        return Err(Refusal::TooManyLists(0));
    }
    if !lists_right(task, lists) {
        return Err(Refusal::NotTwoLists(0));
    }
    if !combiner_right(task, combiner) {
        return Err(Refusal::UnknownCombiner(0));
    }
    Ok(task)
}

// The head at a file's start, and what is left behind it.
pub fn head_at(file: &[u8]) -> Result<(Head, Rest<'_>), Refusal>
    ensures { Opens file.now result }
{
    let rest = Rest { at: 0, bytes: file }.record_at(HEAD, HEAD_SIZE)?;
    let operation = file[2];
    let combiner = file[3];
    let lists = big_endian(&file[4..6]) as usize;
    let task = judge_head(operation, combiner, lists)?;
    Ok((
        Head {
            task,
            operation,
            combiner,
            lists,
        },
        rest,
    ))
}
