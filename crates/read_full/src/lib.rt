// Reading into a buffer of fixed size.

#![tactic(auto)]

ghost use Rattle.std.specs.Prelude.{◌≤◌, length, IfOk};

use std::io::{self, Read};

// Reads until the buffer is full or the input ends. Says how many bytes came. A read may bring fewer than there is room for, so the loop goes on by
// what came.
pub fn read_full<R: Read>(input: &mut R, buffer: &mut [u8]) -> io::Result<usize>
    ensures { IfOk result (λ n. n ≤ length buffer.new) }
{
    let mut length = 0;
    while length < buffer.len() {
        let count = input.read(&mut buffer[length..])?;
        if count == 0 {
            break;
        }
        length += count;
    }
    Ok(length)
}
