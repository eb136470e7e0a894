// Fills a heap in several orders and writes the lists of its entries as they leave it, a letter each: a to p, and A to P for
// those that took the place of a top.

#![tactic(auto)]

ghost use Rattle.std.specs.Prelude.{◌<◌, ◌≡◌};

use heap::{Entry, Heap};

// Sixteen letters and the line's end.
type Line = [u8; 17];

const EMPTY: Line = [b'\n'; 17];

fn letter(list: u8) -> u8 {
    match list {
        0..=15 => b'a' + list,
        16..=31 => b'A' + (list - 16),
        _ => b'?',
    }
}

// The letter of the list on top.
fn top(heap: &Heap) -> u8 {
    heap.top().map_or(b'?', |least| letter(least.list))
}

// The key of a list: some share one, and some have the least or the greatest.
fn key(list: u8) -> u64 {
    match list {
        3 | 12 => 0,
        0 | 7 => 18446744073709551615,
        1 | 5 | 9 => 40,
        2 | 15 => 41,
        4 => 39,
        6 | 10 | 14 => 90,
        8 => 3,
        11 => 1,
        _ => 2,
    }
}

// A heap of the sixteen lists, pushed a step apart.
fn filled(step: u8) -> Heap
    requires { step < 16 }
    ensures { result.len ≡ 16 }
{
    let mut heap = Heap::new();
    for i in 0..16 {
        let list = i * step % 16;
        heap.push(Entry {
            key: key(list),
            list,
        });
    }
    heap
}

// Pops all, and gives their letters.
fn drain(heap: &mut Heap) -> Line
    requires { heap.old.len ≡ 16 }
{
    let mut line = EMPTY;
    for i in 0..16 {
        line[i] = top(heap);
        heap.pop();
    }
    line
}

// Replaces the top sixteen times, by entries in the middle, and gives the letters of those replaced.
fn turn(heap: &mut Heap) -> Line
    requires { heap.old.len ≡ 16 }
    ensures { heap.new.len ≡ 16 }
{
    let mut line = EMPTY;
    for i in 0..16 {
        line[i] = top(heap);
        heap.replace_top(Entry {
            key: 40,
            list: 16 + i as u8,
        });
    }
    line
}

// A line that cannot be written is passed over.
fn say(rt: &impl Print, line: Line) {
    let _ = rt.write_all(&line);
}

fn turns(rt: &impl Print, step: u8)
    requires { step < 16 }
{
    let mut heap = filled(step);
    say(rt, turn(&mut heap));
    say(rt, drain(&mut heap));
}

fn main(rt: HostRuntime) {
    for step in [1, 15, 5, 11] {
        say(&rt, drain(&mut filled(step)));
    }
    turns(&rt, 7);
}
