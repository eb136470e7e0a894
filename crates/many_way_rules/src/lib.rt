// Many-way joins and selections as data: which points an operation admits, and whose value it gives them.

#![tactic(auto)]

ghost use Rattle.std.specs.Prelude.{◌≡◌};
ghost use Rattle.many_way_rules.specs.Combiners as rules;

// Which points are admitted: those in every list, in at least one, or in an odd number of them.
#[derive(Clone, Copy, Debug, PartialEq, Eq)]
pub enum Admission {
    Every,
    Any,
    Odd,
}

// Which of the lists present is selected.
#[derive(Clone, Copy, Debug, PartialEq, Eq)]
pub enum Pick {
    Highest,
}

// A join combines the values of the lists present, by the number of its combiner; a selection takes the value of one. The number stays one:
// C and the tariff file hand it over, rules and texts say it, and an enum in between would only rename five arms.
#[derive(Clone, Copy, Debug, PartialEq, Eq)]
pub enum Operation {
    Join(Admission, u8),
    Select(Pick, Admission),
}

// The number of the last combiner; the first is 1.
pub const LAST_COMBINER: u8 = 5;

// Whether a combiner has the number.
pub fn known(combiner: u8) -> bool
    ensures { result ≡ rules.known combiner }
{
    (1..=LAST_COMBINER).contains(&combiner)
}
