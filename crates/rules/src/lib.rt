// What a call of the library answers, the refusals among them, and what tells one kind of call from another.

#![tactic(auto)]

ghost use Rattle.std.specs.Prelude.{◌≡◌};
ghost use Rattle.rules.specs.Answer.{refusal_code, refusal_number, code_of, number_of};

// The most lists of one set, and the most ranges of its lists together.
pub const MAX_LISTS: usize = 16;

pub const MAX_RANGES: usize = 2048;

// Lists as they are lent: columns of starts, ends and values, and one count per list; lists lie end to end in list order.
#[derive(Clone, Copy)]
pub struct Lists<'a, P> {
    pub starts: &'a [P],
    pub ends: &'a [P],
    pub values: &'a [i32],
    pub counts: &'a [u32],
}

// Why a call is refused. What is found before an operation runs is `Result<(), Refusal>`; a call answers `Result<usize, Refusal>`, the
// pieces written.
#[derive(Clone, Copy, Debug, PartialEq, Eq)]
pub enum Refusal {
    TooManyLists,
    NotTwoLists,
    TooManyRanges,
    ColumnsDiffer,
    // The flat index of a range that starts beyond its end.
    Backward(usize),
    // The flat index of a range that starts no later than the end before it in its list.
    Overlap(usize),
    UnknownCombiner,
    // The pieces needed, more than there is room for.
    NoRoom(usize),
}

// Both numbers are those of the C interface: over variants with fields no conversion of the language gives them.
impl Refusal {
    pub fn code(self) -> u8
        ensures { result ≡ refusal_code self }
    {
        match self {
            Refusal::TooManyLists => 1,
            Refusal::NotTwoLists => 2,
            Refusal::TooManyRanges => 3,
            Refusal::ColumnsDiffer => 4,
            Refusal::Backward(_) => 5,
            Refusal::Overlap(_) => 6,
            Refusal::UnknownCombiner => 7,
            Refusal::NoRoom(_) => 8,
        }
    }

    pub fn number(self) -> usize
        ensures { result ≡ refusal_number self }
    {
        match self {
            Refusal::Backward(i) | Refusal::Overlap(i) => i,
            Refusal::NoRoom(n) => n,
            _ => 0,
        }
    }
}

// What is to be done with the lists, as far as refusals tell it apart.
#[derive(Clone, Copy, Debug, PartialEq, Eq)]
pub enum Kind {
    Listing,
    TwoWay,
    // A many-way join: whether its combiner is known.
    Combining(bool),
    Selection,
}

// Which runs of two lists a two-way join keeps: those that both cover, that the left covers, or that either does.
#[derive(Clone, Copy, Debug, PartialEq, Eq)]
pub enum Pairing {
    Inner,
    Left,
    Full,
}

// An answer's code, 0 where it is done, and its number, the pieces written or the refusal's.
pub fn code(answer: Result<usize, Refusal>) -> u8
    ensures { result ≡ code_of answer }
{
    match answer {
        Ok(_) => 0,
        Err(refusal) => refusal.code(),
    }
}

pub fn number(answer: Result<usize, Refusal>) -> usize
    ensures { result ≡ number_of answer }
{
    match answer {
        Ok(pieces) => pieces,
        Err(refusal) => refusal.number(),
    }
}
