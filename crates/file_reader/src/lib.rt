// A tariff file, read into columns.

#![tactic(auto)]

ghost use Rattle.std.specs.Prelude.{◌≤◌, length};
ghost use Rattle.rules.specs.Merged.{room};
ghost use Rattle.tariff_file.specs.File.{read_list, read_lists};
ghost use Rattle.file_records.specs.Columns.{columns_of, Same};
ghost use Rattle.file_reader.specs.Fills.{Fills, Counted, Gathered};
ghost use Rattle.file_reader.specs.Holds.{Holds};

use file_head::{Head, head_at};
use file_records::{Columns, Rest, big_endian, read_ranges};
use rules::MAX_RANGES;
use tariff_file::{MAX_BYTES, Refusal};

// The second byte of a list's mark, and its bytes.
const LIST: u8 = 0x4C;

const LIST_SIZE: usize = 4;

// What a file holds: its head, and how many ranges there are. The columns have a fixed room, as there is no heap.
#[derive(Clone, Copy, Debug, PartialEq, Eq)]
pub struct Contents {
    pub head: Head,
    pub ranges: usize,
}

// A list that comes after so many ranges, into the columns from there on: what is left behind it, and its count.
fn read_list<'a>(
    from: Rest<'a>,
    prior: usize,
    columns: &mut Columns,
) -> Result<(Rest<'a>, usize), Refusal>
    requires { (prior ≤ 2048) × (2048 ≤ room (columns_of columns.old)) }
    ensures read { let counted = Counted prior (columns_of columns.old) (columns_of columns.new) in
        Fills (read_list prior) from.entry counted result }
    ensures same { Same columns.old columns.new }
{
    let ranges = from.record_at(LIST, LIST_SIZE)?;
    let count = big_endian(&from.bytes[2..4]) as usize;
    let left = MAX_RANGES - prior;
    if left < count {
        return Err(Refusal::TooManyRanges(from.at));
    }
    let rest = read_ranges(ranges, count, prior, columns)?;
    Ok((rest, count))
}

// As many lists as there are counts, into the columns and their counts: what is left behind them, and how many ranges they have.
fn read_lists<'a>(
    from: Rest<'a>,
    columns: &mut Columns,
    counts: &mut [u32],
) -> Result<(Rest<'a>, usize), Refusal>
    requires { 2048 ≤ room (columns_of columns.old) }
    ensures read { let c = Gathered (length counts.old) (columns_of columns.old) (columns_of columns.new) counts.old counts.new in
        Fills (read_lists (length counts.old) 0) from.entry c result }
    ensures same { Same columns.old columns.new }
{
    let mut rest = from;
    let mut ranges = 0;
    for count in counts.iter_mut() {
        let (past, n) = read_list(rest, ranges, columns)?;
        *count = n as u32;
        rest = past;
        ranges += n;
    }
    Ok((rest, ranges))
}

// A whole file: what it holds, its lists being in the columns, or why it is refused.
pub fn read_file(
    file: &[u8],
    starts: &mut [i64; 2048],
    ends: &mut [i64; 2048],
    values: &mut [i32; 2048],
    counts: &mut [u32; 16],
) -> Result<Contents, Refusal>
    ensures { Holds file.now result (record { starts = starts.new; ends = ends.new; values = values.new; counts = counts.new }) }
{
    if MAX_BYTES < file.len() {
        return Err(Refusal::TooLong);
    }
    let (head, lists) = head_at(file)?;
    let mut columns = Columns {
        starts,
        ends,
        values,
    };
    let (rest, ranges) = read_lists(lists, &mut columns, &mut counts[..head.lists])?;
    if !rest.bytes.is_empty() {
        return Err(Refusal::LeftOver(rest.at));
    }
    Ok(Contents { head, ranges })
}
