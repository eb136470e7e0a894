// Records of a tariff file: what is left of it, numbers, and ranges, which go into columns.

#![tactic(auto)]

ghost use Rattle.std.specs.Prelude.{◌+◌, ◌^◌, ◌≤◌, ◌<◌, ◌≡◌, [], ◌∷◌, length};
ghost use Rattle.rules.specs.Merged.{room};
ghost use Rattle.tariff_file.specs.Layout.{number};
ghost use Rattle.tariff_file.specs.File.{read_range, read_ranges};
ghost use Rattle.file_records.specs.Ends.{Ends};
ghost use Rattle.file_records.specs.Columns.{columns_of, Same, Took};

mod rest;

pub use rest::Rest;
use tariff_file::Refusal;

// The second byte of a range's mark, and its bytes.
const RANGE: u8 = 0x52;

const RANGE_SIZE: usize = 22;

// The number that bytes write, big-endian.
pub fn big_endian(bytes: &[u8]) -> u64
    requires { length bytes.now ≤ 8 }
    ensures { (result ≡ number bytes.now) × (result < 256 ^ length bytes.now) }
{
    let mut padded = [0; 8];
    padded[8 - bytes.len()..].copy_from_slice(bytes);
    u64::from_be_bytes(padded)
}

// The columns that ranges are read into. They have a fixed room, as there is no heap.
#[derive(Drop)]
pub struct Columns<'a> {
    pub starts: &'a mut [i64],
    pub ends: &'a mut [i64],
    pub values: &'a mut [i32],
}

// A range, into a place of the columns.
fn read_range<'a>(from: Rest<'a>, place: usize, columns: &mut Columns) -> Result<Rest<'a>, Refusal>
    requires { place < room (columns_of columns.old) }
    ensures read { let took = Took place (columns_of columns.old) (columns_of columns.new) in
        Ends read_range from.entry (λ x. took (x ∷ [])) result }
    ensures same { Same columns.old columns.new }
{
    let rest = from.record_at(RANGE, RANGE_SIZE)?;
    columns.starts[place] = big_endian(&from.bytes[2..10]).cast_signed();
    columns.ends[place] = big_endian(&from.bytes[10..18]).cast_signed();
    columns.values[place] = (big_endian(&from.bytes[18..22]) as u32).cast_signed();
    Ok(rest)
}

// So many ranges, into the columns from a place on.
pub fn read_ranges<'a>(
    from: Rest<'a>,
    n: usize,
    place: usize,
    columns: &mut Columns,
) -> Result<Rest<'a>, Refusal>
    requires { place + n ≤ room (columns_of columns.old) }
    ensures read { let took = Took place (columns_of columns.old) (columns_of columns.new) in
        Ends (read_ranges n) from.entry (λ l. (length l ≡ n) × took l) result }
    ensures same { Same columns.old columns.new }
{
    let mut rest = from;
    for i in 0..n {
        rest = read_range(rest, place + i, columns)?;
    }
    Ok(rest)
}
