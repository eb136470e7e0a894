// Tables, whose rows print as lines.

ghost use Rattle.std.specs.Prelude.{ℕ, ◌<◌, ◌≤◌, ◌≡◌, ◌+◌, List, length, map};
ghost use Rattle.answer_text.specs.Lines.{text};
ghost use Rattle.answer_text.specs.Answers.{firsts};
ghost use Rattle.text_fields.specs.Fields.{spelled, Spares};
ghost use Rattle.text_fields.specs.Tables.{rows_text};
ghost use Rattle.text_fields.specs.Writing.{Fits, Writes};

use crate::{Field, Writer, after_line};

// Rows of as many fields each, by their places. How many of them count is told apart: columns have a fixed room, as there is no heap.
pub trait Table<const N: usize> {
    // How many rows there are.
    ghost count: { Self → ℕ };

    // What stands in a row.
    ghost fields: { Self → ℕ → List (List ℕ) };

    fn row(&self, i: usize) -> [Field; N]
        requires { i < count self.now }
        ensures { map spelled result ≡ fields self.now i };

    // An array of so many fields has a size.
    ghost few: { N ≤ 16 };
}

// What the first n rows leave of some room, where they fit.
pub fn after_rows<const N: usize, T: Table<N>>(table: &T, n: usize, room: usize) -> Option<usize>
    requires { n ≤ T.count table.now }
    ensures { Spares room (rows_text (T.fields table.now) n) result }
{
    let mut spare = room;
    for i in 0..n {
        spare = after_line(&table.row(i), spare)?;
    }
    Some(spare)
}

// Writes the first n rows.
pub fn put_rows<const N: usize, T: Table<N>>(table: &T, n: usize, writer: &mut Writer)
    requires { n ≤ T.count table.now × Fits writer.old (rows_text (T.fields table.now) n) }
    ensures { Writes writer.old (rows_text (T.fields table.now) n) writer.new }
{
    for i in 0..n {
        writer.line(&table.row(i));
    }
}
