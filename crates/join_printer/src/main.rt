// The join printer: a tariff file from standard input, its printed text to standard output.

#![tactic(auto)]

use join_file::join_file;
use read_full::read_full;
use std::io::{self, Write};

// A byte more than the longest file, so that a longer one is told.
const MOST: usize = 45127;

// Room for the longest text.
const ROOM: usize = 249806;

fn main(rt: HostRuntime) -> io::Result<()> {
    let mut file: [u8; MOST] = [0; MOST];
    let mut text: [u8; ROOM] = [0; ROOM];
    let length = read_full(&mut rt.stdin(), &mut file)?;
    let count = join_file(&file[..length], &mut text);
    rt.stdout().write_all(&text[..count])
}
