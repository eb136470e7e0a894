// Whole answers as text into a lent buffer, each measured first, then written; where one does not fit, nothing is written.

#![tactic(auto)]

ghost use Rattle.std.specs.Prelude.{ℕ, ◌≤◌, ◌≡◌, ◌++◌, map};
ghost use Rattle.std.proofs.Common.{lit≤};
ghost use Rattle.rules.specs.Merged.{room};
ghost use Rattle.rules.specs.Paired.{room as pair_room};
ghost use Rattle.answer_text.specs.Lines.{line};
ghost use Rattle.answer_text.specs.Answers.{row, row_at, merged_text, paired_text, refusal_text};
ghost use Rattle.answer_text.specs.Buffer.{tries, attempt};
ghost use Rattle.text_fields.specs.Fields.{spelled};
ghost use Rattle.text_fields.specs.Tables.{rows_text};
ghost use Rattle.text_pairs.specs.Pairs.{columns_of as pair_columns_of};
ghost use Rattle.text_rows.specs.Parts.{header_of, columns_of};

use text_fields::table::{Table, after_rows, put_rows};
use text_fields::{Field, Writer, after_line};
use text_pairs::Pairs;

// What the first line of an answer tells: operation and combiner as the numbers that a file gives, how many lists there are, and how
// many rows count, as columns have a fixed room.
#[derive(Clone, Copy)]
pub struct Header {
    pub operation: u8,
    pub combiner: u8,
    pub lists: usize,
    pub pieces: usize,
}

impl Header {
    fn fields(self) -> [Field; 5]
        ensures { map spelled result ≡ header_of self }
    {
        [
            Field::Join,
            Field::Count(u64::from(self.operation)),
            Field::Count(u64::from(self.combiner)),
            Field::Count(self.lists as u64),
            Field::Count(self.pieces as u64),
        ]
    }
}

// The columns of a many-way answer.
#[derive(Clone, Copy)]
pub struct Rows<'a> {
    pub start: &'a [i64],
    pub end: &'a [i64],
    pub value: &'a [i64],
}

impl Table<3> for Rows<'_> {
    ghost count = { λ r. room (columns_of r) };

    ghost fields = { λ r i. row (row_at (columns_of r) i) };

    ghost few = { lit≤ tt };

    fn row(&self, i: usize) -> [Field; 3] {
        [
            Field::Number(self.start[i]),
            Field::Number(self.end[i]),
            Field::Number(self.value[i]),
        ]
    }
}

// Prints a header and as many rows.
fn print_table<const N: usize, T: Table<N>>(
    header: Header,
    table: &T,
    out: &mut [u8],
) -> Option<usize>
    requires { header.pieces ≤ T.count table.now }
    ensures { tries result out.new ≡ attempt (line (header_of header) ++ rows_text (T.fields table.now) header.pieces) out.old }
{
    let first = header.fields();
    let spare = after_line(&first, out.len())?;
    after_rows(table, header.pieces, spare)?;
    let mut writer = Writer { out, at: 0 };
    writer.line(&first);
    put_rows(table, header.pieces, &mut writer);
    Some(writer.at)
}

// Prints a many-way answer, whose pieces are the first rows of the columns.
pub fn print_merged(header: Header, rows: Rows, out: &mut [u8]) -> Option<usize>
    requires { header.pieces ≤ room (columns_of rows) }
    ensures { tries result out.new
        ≡ attempt (merged_text header.operation header.combiner header.lists (columns_of rows.entry) header.pieces) out.old }
{
    print_table(header, &rows, out)
}

// Prints a two-way answer, whose pieces are the first rows of the columns.
pub fn print_paired(header: Header, pairs: Pairs, out: &mut [u8]) -> Option<usize>
    requires { header.pieces ≤ pair_room (pair_columns_of pairs) }
    ensures { tries result out.new
        ≡ attempt (paired_text header.operation header.combiner header.lists (pair_columns_of pairs.entry) header.pieces) out.old }
{
    print_table(header, &pairs, out)
}

// Prints a refusal. Two crates have their own: a trait for both would take four functions that hand on `code` and `number`.
pub fn print_refusal(code: u8, number: usize, out: &mut [u8]) -> Option<usize>
    ensures { tries result out.new ≡ attempt (refusal_text code number) out.old }
{
    let fields = [
        Field::Refused,
        Field::Count(u64::from(code)),
        Field::Count(number as u64),
    ];
    after_line(&fields, out.len())?;
    let mut writer = Writer { out, at: 0 };
    writer.line(&fields);
    Some(writer.at)
}
