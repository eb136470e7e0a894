// What is left of a tariff file from an offset on.

#![tactic(auto)]

ghost use Rattle.std.specs.Prelude.{◌+◌, ◌^◌, ◌<◌, ◌≤◌, length, IfOk};

use tariff_file::Refusal;

// The first byte of each record's mark.
const MARK: u8 = 0x4A;

// The bytes of a file from an offset on.
#[derive(Clone, Copy)]
pub struct Rest<'a> {
    pub at: usize,
    pub bytes: &'a [u8],
    pub ghost counted: { at + length bytes.now < 2 ^ 64 },
}

impl<'a> Rest<'a> {
    ghost use Rattle.file_records.specs.Ends.{Marked};

    // What follows a record, where its mark and all its bytes are there.
    pub fn record_at(self, second: u8, size: usize) -> Result<Rest<'a>, Refusal>
        ensures marked { Marked self.entry second size result }
        ensures long { IfOk result (λ _. size ≤ length self.entry.bytes.now) }
    {
        let Rest { at, bytes } = self;
        if bytes.len() < 2 {
            return Err(Refusal::CutShort(at));
        }
        if bytes[0] != MARK || bytes[1] != second {
            return Err(Refusal::WrongMark(at));
        }
        if bytes.len() < size {
            return Err(Refusal::CutShort(at));
        }
        Ok(Rest {
            at: at + size,
            bytes: &bytes[size..],
        })
    }
}
