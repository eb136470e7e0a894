// The tariff file: what its operations are, and why one is refused.

#![tactic(auto)]

ghost use Rattle.std.specs.Prelude.{◌≡◌};
ghost use Rattle.std.specs.Result.{result_ok};
ghost use Rattle.tariff_file.specs.File.{task_of, code_of, number_of};

use many_way_rules::{Admission, Pick};
use rules::Pairing;

// What an operation does with the lists: a two-way join, a join, whose combiner the head gives, or a selection.
#[derive(Clone, Copy, Debug, PartialEq, Eq)]
pub enum Task {
    Pair(Pairing),
    Merge(Admission),
    Choose(Pick, Admission),
}

// A number that stands for no operation.
#[derive(Clone, Copy, Debug, PartialEq, Eq)]
pub struct NoOperation;

// What an operation's number stands for.
impl TryFrom<u8> for Task {
    type Error = NoOperation;

    ghost try_from_gives = { λ o r. result_ok r ≡ task_of o };

    fn try_from(operation: u8) -> Result<Task, NoOperation> {
        match operation {
            1 => Ok(Task::Pair(Pairing::Inner)),
            2 => Ok(Task::Pair(Pairing::Left)),
            3 => Ok(Task::Pair(Pairing::Full)),
            4 => Ok(Task::Merge(Admission::Every)),
            5 => Ok(Task::Merge(Admission::Any)),
            6 => Ok(Task::Choose(Pick::Highest, Admission::Any)),
            7 => Ok(Task::Choose(Pick::Highest, Admission::Odd)),
            _ => Err(NoOperation),
        }
    }
}

// The most bytes of a file.
pub const MAX_BYTES: usize = 45126;

// Why a tariff file is refused. The number is the offset of the record at fault, or of the first byte left over; of one too long it is
// the most bytes of a file.
#[derive(Clone, Copy, Debug, PartialEq, Eq)]
pub enum Refusal {
    TooLong,
    WrongMark(usize),
    CutShort(usize),
    LeftOver(usize),
    UnknownOperation(usize),
    TooManyLists(usize),
    NotTwoLists(usize),
    UnknownCombiner(usize),
    TooManyRanges(usize),
}

// The numbers that are printed for a refusal: a cast gives none of variants with fields.
impl Refusal {
    pub fn code(self) -> u8
        ensures { result ≡ code_of self }
    {
        match self {
            Refusal::TooManyLists(_) => 1,
            Refusal::NotTwoLists(_) => 2,
            Refusal::TooManyRanges(_) => 3,
            Refusal::UnknownCombiner(_) => 7,
            Refusal::TooLong => 9,
            Refusal::WrongMark(_) => 10,
            Refusal::CutShort(_) => 11,
            Refusal::LeftOver(_) => 12,
            Refusal::UnknownOperation(_) => 13,
        }
    }

    pub fn number(self) -> usize
        ensures { result ≡ number_of self }
    {
        match self {
            Refusal::TooLong => MAX_BYTES,
            Refusal::WrongMark(at)
            | Refusal::CutShort(at)
            | Refusal::LeftOver(at)
            | Refusal::UnknownOperation(at)
            | Refusal::TooManyLists(at)
            | Refusal::NotTwoLists(at)
            | Refusal::UnknownCombiner(at)
            | Refusal::TooManyRanges(at) => at,
        }
    }
}
