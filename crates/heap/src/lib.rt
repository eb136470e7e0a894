// A min-heap of at most 16 entries, the least on top, at place 0.

#![tactic(auto)]

ghost use Rattle.std.specs.Prelude.{ℕ, ◌+◌, ◌*◌, ◌<◌, ◌≤◌, ◌≡◌};
ghost use Rattle.integer.specs.Order.{Less};
ghost use Rattle.heap.specs.Order.{Ordered, Ordered_prop};
ghost use Rattle.heap.specs.Heap.{rank_of, ranks};
ghost use Rattle.heap.specs.Holes.{Stored, Chosen, Climbed, Sifted};

// The key of a point with a list: the lesser key comes first, and of equal keys the lower list.
#[derive(Clone, Copy, Debug, PartialEq, Eq, PartialOrd, Ord)]
pub struct Entry {
    pub key: u64,
    pub list: u8,
}

// Sixteen places, each with an entry that has a rank.
pub trait Places {
    type Entry: Copy;

    ghost rank: { Self.Entry → ℕ };

    // The rank at each place.
    ghost ranks: { Self → ℕ → ℕ };

    fn get(&self, place: usize) -> Self::Entry
        requires { place < 16 }
        ensures { rank result ≡ ranks self.now place };

    fn put(&mut self, place: usize, entry: Self::Entry)
        requires { place < 16 }
        ensures { Stored (ranks self.old) (ranks self.new) place (rank entry) };

    // Whether an entry comes before another. It is said of ranks, which `Ord` has none of.
    fn earlier(entry: Self::Entry, other: Self::Entry) -> bool
        ensures { Less (rank entry) (rank other) result };
}

// Puts an entry at a place, or at the first place on the way up whose parent is not after it; those passed come down.
pub fn climb<S: Places>(places: &mut S, place: usize, entry: S::Entry)
    requires { place < 16 }
    ensures { Climbed (S.ranks places.old) (S.ranks places.new) place (S.rank entry) }
{
    if place > 0 {
        let parent = (place - 1) / 2;
        let above = places.get(parent);
        if S::earlier(entry, above) {
            places.put(place, above);
            climb(places, parent, entry);
            return;
        }
    }
    places.put(place, entry);
}

// The earlier child of a place that has one.
fn lesser<S: Places>(places: &S, len: usize, place: usize) -> usize
    requires { (2 * place + 1 < len) × (len ≤ 16) }
    ensures { Chosen (S.ranks places.now) len place result }
{
    let left = 2 * place + 1;
    let right = left + 1;
    if len <= right {
        return left;
    }
    left + S::earlier(places.get(right), places.get(left)) as usize
}

// Puts an entry at a place, or at the first place on the way down whose children are not before it; those passed come up.
pub fn sift<S: Places>(places: &mut S, len: usize, place: usize, entry: S::Entry)
    requires { (place < 16) × (len ≤ 16) }
    ensures { Sifted (S.ranks places.old) (S.ranks places.new) len place (S.rank entry) }
{
    if 2 * place + 1 < len {
        let child = lesser(places, len, place);
        let below = places.get(child);
        if S::earlier(below, entry) {
            places.put(place, below);
            sift(places, len, child, entry);
            return;
        }
    }
    places.put(place, entry);
}

// The places of entries. Keys and lists are two arrays: with one array of entries the event listing takes more time.
#[derive(Clone, Copy)]
pub struct Entries {
    pub keys: [u64; 16],
    pub lists: [u8; 16],
}

impl Places for Entries {
    type Entry = Entry;

    ghost rank = { rank_of };

    ghost ranks = { ranks };

    fn get(&self, place: usize) -> Entry {
        Entry {
            key: self.keys[place],
            list: self.lists[place],
        }
    }

    fn put(&mut self, place: usize, entry: Entry) {
        self.keys[place] = entry.key;
        self.lists[place] = entry.list;
    }

    fn earlier(entry: Entry, other: Entry) -> bool {
        entry < other
    }
}

// The first `len` places are in use: no heap memory, so the room is fixed and how much of it is in use is told beside it.
#[derive(Clone, Copy)]
pub struct Heap {
    pub places: Entries,
    pub len: usize,
    pub ghost small: { len ≤ 16 },
    pub ghost ordered: { Ordered (ranks places) len } by { Ordered_prop (ranks places) len },
}

impl Heap {
    ghost use Rattle.heap.specs.Moved.{Top, Pushed, Popped, Topped};

    // A heap of no entries.
    pub fn new() -> Heap
        ensures { result.len ≡ 0 }
    {
        Heap {
            places: Entries {
                keys: [0; 16],
                lists: [0; 16],
            },
            len: 0,
        }
    }

    // The least entry.
    pub fn top(&self) -> Option<Entry>
        ensures { Top self.now result }
    {
        if self.len == 0 {
            return None;
        }
        Some(self.places.get(0))
    }

    // Adds an entry.
    pub fn push(&mut self, entry: Entry)
        requires { self.old.len < 16 }
        ensures { Pushed self.old self.new (rank_of entry) }
    {
        climb(&mut self.places, self.len, entry);
        self.len += 1;
    }

    // Removes the top: the last entry goes down from there.
    pub fn pop(&mut self)
        requires { 0 < self.old.len }
        ensures { Popped self.old self.new }
    {
        self.len -= 1;
        let last = self.places.get(self.len);
        sift(&mut self.places, self.len, 0, last);
    }

    // Puts an entry in the place of the top, from where it goes down.
    pub fn replace_top(&mut self, entry: Entry)
        requires { 0 < self.old.len }
        ensures { Topped self.old self.new (rank_of entry) }
    {
        sift(&mut self.places, self.len, 0, entry);
    }
}
