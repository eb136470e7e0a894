// Which of at most sixteen lists are active: the highest of them, and how many. Contracts speak of the set alone (specs/Active).
// It is kept in a heap of lists, the highest on top; a list is in it at most once, and one that ended stays in it until it
// comes to the top, where it is dropped (specs/Kept). An entry is one byte, and no key beside it as in crate heap, whose laws it shares.

#![tactic(auto)]

ghost use Rattle.std.specs.Prelude.{◌+◌, ◌*◌, ◌<◌, ◌≤◌, ◌≡◌, ◌%◌, true, false, eqb, replicate};
ghost use Rattle.integer.specs.Order.{Less};
ghost use Rattle.heap.specs.Holes.{Chosen, Climbed, Sifted};
ghost use Rattle.active_lists.specs.Active.{members, with, without, number, Alike, IsHighest};
ghost use Rattle.active_lists.specs.Kept.{rank, ranks, seen};

use heap::{Places, climb, sift};
use std::marker::Model;

// A list is not in the heap; it is, and ended; it is, and is active.
#[derive(Clone, Copy, Debug, PartialEq, Eq)]
enum Mark {
    Out,
    Ended,
    On,
}

// The places of the heap of lists, the higher list first.
#[derive(Clone, Copy)]
struct Heaped {
    lists: [u8; 16],
}

// The heap stands in its first `len` places; there is a mark for each list; `count` lists are active. Both are numbers of what a set of fixed
// room holds, with no heap memory: they are no index of a loop.
#[derive(Clone, Copy)]
pub struct Active {
    heap: Heaped,
    marks: [Mark; 16],
    len: usize,
    count: usize,
}

// What is kept, whole, so that a value can be copied; contracts speak of `seen` of it.
impl Model for Active {
    ghost use Rattle.active_lists.specs.Kept.{Fields, Keeps};

    ghost Value = { Fields };

    ghost view = { λ a. record { heap = a.heap; marks = a.marks; len = a.len; count = a.count } };

    ghost inverse = { λ a. record { heap = a.heap; marks = a.marks; len = a.len; count = a.count } };

    ghost invariant = { λ a. Keeps (record { heap = a.heap; marks = a.marks; len = a.len; count = a.count }) };
}

impl Places for Heaped {
    type Entry = u8;

    ghost rank = { rank };

    ghost ranks = { ranks };

    fn get(&self, place: usize) -> u8 {
        self.lists[place]
    }

    fn put(&mut self, place: usize, entry: u8) {
        self.lists[place] = entry;
    }

    fn earlier(entry: u8, other: u8) -> bool {
        other < entry
    }
}

impl Active {
    // No list is active.
    pub fn idle() -> Active
        ensures { seen result ≡ replicate 16 false }
    {
        Active {
            heap: Heaped { lists: [0; 16] },
            marks: [Mark::Out; 16],
            len: 0,
            count: 0,
        }
    }

    // A list becomes active. It is entered unless it is still in the heap.
    pub fn activate(&mut self, list: usize)
        requires small { list < 16 }
        requires off { members (seen self.old) list ≡ false }
        ensures { Alike (members (seen self.new)) (with (members (seen self.old)) list) }
    {
        let mark = self.marks[list];
        self.marks[list] = Mark::On;
        self.count += 1;
        if mark == Mark::Out {
            climb(&mut self.heap, self.len, list as u8);
            self.len += 1;
        }
    }

    // A list becomes inactive. It stays in the heap.
    pub fn deactivate(&mut self, list: usize)
        requires small { list < 16 }
        requires on { members (seen self.old) list ≡ true }
        ensures { Alike (members (seen self.new)) (without (members (seen self.old)) list) }
    {
        self.marks[list] = Mark::Ended;
        self.count -= 1;
    }

    // The highest active list, or none. Lists that ended are dropped from the top: the last entry goes down from there. The loop is a search:
    // it goes on by what is on top.
    pub fn highest(&mut self) -> Option<usize>
        ensures same { seen self.new ≡ seen self.old }
        ensures highest { IsHighest (members (seen self.old)) result }
    {
        while self.len > 0 {
            let top = self.heap.lists[0] as usize;
            if self.marks[top] == Mark::On {
                return Some(top);
            }
            self.marks[top] = Mark::Out;
            self.len -= 1;
            let last = self.heap.lists[self.len];
            sift(&mut self.heap, self.len, 0, last);
        }
        None
    }

    // How many lists are active.
    pub fn how_many(&self) -> usize
        ensures { result ≡ number (members (seen self.now)) }
    {
        self.count
    }

    // Whether the number of active lists is odd.
    pub fn odd(&self) -> bool
        ensures { result ≡ eqb (number (members (seen self.now)) % 2) 1 }
    {
        self.count % 2 == 1
    }
}
