// Runs a stored list of tariff files through the join printer's function, and says how many give the text that is stored with them.
// The list, `answers.bin`: for each file its length and its text's, each in four bytes, big-endian, then the file and the text.

#![tactic(auto)]

ghost use Rattle.std.specs.Prelude.{◌+◌, ◌≤◌, IfSome, length};

use join_file::join_file;
use read_full::read_full;
use std::{fs, io};

// Room for the list, a byte more than the longest, so that a longer one is told; and for a text of it.
const LIST_ROOM: usize = 262144;

const TEXT_ROOM: usize = 65536;

// A file, the text that is stored with it, and what comes after them in the list.
#[derive(Clone, Copy)]
struct Turn<'a> {
    file: &'a [u8],
    text: &'a [u8],
    rest: &'a [u8],
}

impl Turn<'_> {
    // Whether the file prints as the text.
    fn agrees(self) -> bool {
        let mut text: [u8; TEXT_ROOM] = [0; TEXT_ROOM];
        let count = join_file(self.file, &mut text);
        &text[..count] == self.text
    }
}

// How many files agree and how many do not, which is the first that does not, counted from 1, and whether the list is whole, a flag
// that stands beside no value.
#[derive(Clone, Copy)]
struct Tally {
    agree: usize,
    differ: usize,
    first: Option<usize>,
    whole: bool,
}

// The length at the front of a list, and what comes after it.
fn length_at_front(list: &[u8]) -> Option<(usize, &[u8])>
    ensures { IfSome result (λ p. length p.1.now + 4 ≤ length list.now) }
{
    let (length, rest) = list.split_first_chunk::<4>()?;
    Some((u32::from_be_bytes(*length) as usize, rest))
}

// The file and the text at the front of a list, where it does not break off.
fn turn_at_front(list: &[u8]) -> Option<Turn<'_>>
    ensures { IfSome result (λ t. length t.rest.now + 8 ≤ length list.now) }
{
    let (file_length, rest) = length_at_front(list)?;
    let (text_length, rest) = length_at_front(rest)?;
    let (file, rest) = rest.split_at_checked(file_length)?;
    let (text, rest) = rest.split_at_checked(text_length)?;
    Some(Turn { file, text, rest })
}

// The whole list.
fn replay(list: &[u8]) -> Tally {
    let mut agree = 0;
    let mut differ = 0;
    let mut first = None;
    let mut rest = list;
    while let Some(turn) = turn_at_front(rest) {
        if turn.agrees() {
            agree += 1;
        } else {
            first = first.or(Some(agree + differ + 1));
            differ += 1;
        }
        rest = turn.rest;
    }
    Tally {
        agree,
        differ,
        first,
        whole: rest.is_empty(),
    }
}

// Says what came of the list. A line that cannot be written is passed over.
fn report(rt: &HostRuntime, tally: Tally) {
    let _ = println!(rt; "{} files agree, {} differ", tally.agree, tally.differ);
    if let Some(first) = tally.first {
        let _ = println!(rt; "the first that differs is file {first}, counted from 1");
    }
    if !tally.whole {
        let _ = println!(rt; "the list breaks off");
    }
}

fn main(rt: HostRuntime) -> io::Result<()> {
    let mut list: [u8; LIST_ROOM] = [0; LIST_ROOM];
    let length = read_full(&mut fs::open(&rt, "answers.bin")?, &mut list)?;
    if length == LIST_ROOM {
        let _ = println!(rt; "the list has more bytes than there is room for");
        return Ok(());
    }
    report(&rt, replay(&list[..length]));
    Ok(())
}
