// A tariff file joined and printed: file bytes in, the text into a lent buffer, its length back.

#![tactic(auto)]

ghost use Rattle.std.specs.Prelude.{◌≡◌};
ghost use Rattle.io.specs.Counts.{IsPrefixLen};
ghost use Rattle.answer_text.specs.Buffer.{leaves, print};
ghost use Rattle.printed.specs.Printed.{printed};

use file_reader::read_file;
use join_text::perform;
use rules::Lists;
use text_rows::print_refusal;

// Joins a tariff file, and puts the printed text at the front of the buffer. It answers the text's length; where the text does not
// fit, it answers 0, as the C interface asks, and leaves the buffer as it was. The columns have a fixed room, as there is no heap.
pub fn join_file(file: &[u8], text: &mut [u8]) -> usize
    ensures text_after { leaves result text.new ≡ print (printed file.now) text.old }
    ensures prefix_len { IsPrefixLen result text.new }
{
    let mut starts: [i64; 2048] = [0; 2048];
    let mut ends: [i64; 2048] = [0; 2048];
    let mut values: [i32; 2048] = [0; 2048];
    let mut counts: [u32; 16] = [0; 16];
    let contents = read_file(file, &mut starts, &mut ends, &mut values, &mut counts);
    let length = match contents {
        Ok(contents) => {
            let head = contents.head;
            let ranges = contents.ranges;
            let lists = head.lists;
            let lent = Lists {
                starts: &starts[..ranges],
                ends: &ends[..ranges],
                values: &values[..ranges],
                counts: &counts[..lists],
            };
            perform(head, lent, text)
        }
        Err(refusal) => print_refusal(refusal.code(), refusal.number(), text),
    };
    length.unwrap_or(0)
}
