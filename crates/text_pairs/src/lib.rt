// The rows of a two-way answer, as columns and as lines.

#![tactic(auto)]

ghost use Rattle.std.proofs.Common.{lit≤};
ghost use Rattle.rules.specs.Paired.{room};
ghost use Rattle.answer_text.specs.Answers.{pair, pair_at};
ghost use Rattle.text_pairs.specs.Pairs.{columns_of};

use text_fields::Field;
use text_fields::table::Table;

// The columns: start, end, the value of each side, and which sides are there, as a C caller has them: 1 the left, 2 the right, 3 both.
#[derive(Clone, Copy)]
pub struct Pairs<'a> {
    pub start: &'a [i64],
    pub end: &'a [i64],
    pub left: &'a [i32],
    pub right: &'a [i32],
    pub presence: &'a [u8],
}

impl Table<4> for Pairs<'_> {
    ghost count = { λ p. room (columns_of p) };

    ghost fields = { λ p i. pair (pair_at (columns_of p) i) };

    ghost few = { lit≤ tt };

    fn row(&self, i: usize) -> [Field; 4] {
        let there = self.presence[i];
        [
            Field::Number(self.start[i]),
            Field::Number(self.end[i]),
            Field::side((there % 2 == 1).then_some(self.left[i])),
            Field::side((there / 2 % 2 == 1).then_some(self.right[i])),
        ]
    }
}
