// Lists of a tariff file joined and printed: lent lists in, the text of the answer into a lent buffer, its length back where it fits.

#![tactic(auto)]

ghost use Rattle.std.specs.Prelude.{◌≡◌, length};
ghost use Rattle.rules.specs.Lists.{held};
ghost use Rattle.answer_text.specs.Answers.{answer};
ghost use Rattle.answer_text.specs.Buffer.{tries, attempt};
ghost use Rattle.printed.specs.Printed.{head as head_of, paired_answer, merged_answer, performed};

use file_head::Head;
use many_way_rules::Operation;
use multiway_merge::merge_lists;
use rules::{Lists, Pairing};
use tariff_file::Task;
use text_pairs::Pairs;
use text_rows::{Header, Rows, print_merged, print_paired, print_refusal};
use two_way_join::join_lists;

// What the first line tells where so many pieces answer a head.
fn header(head: Head, lent: Lists<i64>, pieces: usize) -> Header
    ensures { result ≡ record { operation = head.operation; combiner = head.combiner; lists = length lent.entry.counts.now; pieces = pieces } }
{
    Header {
        operation: head.operation,
        combiner: head.combiner,
        lists: lent.counts.len(),
        pieces,
    }
}

// Joins two lists as asked, and prints the pieces or the refusal. The columns have a fixed room, as there is no heap, and are lent
// one by one, as the join takes them.
fn join_pairs(how: Pairing, head: Head, lent: Lists<i64>, text: &mut [u8]) -> Option<usize>
    ensures { tries result text.new ≡ attempt (answer (paired_answer (head_of head.operation head.combiner) how (held lent.entry))) text.old }
{
    let mut out_start: [i64; 4095] = [0; 4095];
    let mut out_end: [i64; 4095] = [0; 4095];
    let mut out_left: [i32; 4095] = [0; 4095];
    let mut out_right: [i32; 4095] = [0; 4095];
    let mut out_presence: [u8; 4095] = [0; 4095];
    let answer = join_lists(
        how,
        lent,
        &mut out_start,
        &mut out_end,
        &mut out_left,
        &mut out_right,
        &mut out_presence,
    );
    match answer {
        Ok(pieces) => {
            let pairs = Pairs {
                start: &out_start,
                end: &out_end,
                left: &out_left,
                right: &out_right,
                presence: &out_presence,
            };
            print_paired(header(head, lent, pieces), pairs, text)
        }
        Err(refusal) => print_refusal(refusal.code(), refusal.number(), text),
    }
}

// Merges lists as asked, and prints the pieces or the refusal.
fn join_many(how: Operation, head: Head, lent: Lists<i64>, text: &mut [u8]) -> Option<usize>
    ensures { tries result text.new ≡ attempt (answer (merged_answer (head_of head.operation head.combiner) how (held lent.entry))) text.old }
{
    let mut out_start: [i64; 4095] = [0; 4095];
    let mut out_end: [i64; 4095] = [0; 4095];
    let mut out_value: [i64; 4095] = [0; 4095];
    let answer = merge_lists(how, lent, &mut out_start, &mut out_end, &mut out_value);
    match answer {
        Ok(pieces) => {
            let rows = Rows {
                start: &out_start,
                end: &out_end,
                value: &out_value,
            };
            print_merged(header(head, lent, pieces), rows, text)
        }
        Err(refusal) => print_refusal(refusal.code(), refusal.number(), text),
    }
}

// Does what a head asks for with the lists, and prints what comes of it. There is no length where the text does not fit.
pub fn perform(head: Head, lent: Lists<i64>, text: &mut [u8]) -> Option<usize>
    ensures { tries result text.new
        ≡ attempt (answer (performed (head_of head.operation head.combiner) head.task (held lent.entry))) text.old }
{
    match head.task {
        Task::Pair(how) => join_pairs(how, head, lent, text),
        Task::Merge(admission) => {
            let how = Operation::Join(admission, head.combiner);
            join_many(how, head, lent, text)
        }
        Task::Choose(pick, admission) => {
            let how = Operation::Select(pick, admission);
            join_many(how, head, lent, text)
        }
    }
}
