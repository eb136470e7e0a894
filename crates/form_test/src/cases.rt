// The cases of the form checker's test, and what their letters mean.

ghost use Rattle.std.specs.Prelude.{◌≤◌, length};

use many_way_rules::known;
use rules::Kind;

// A case of up to three ranges: kind and combiner; the ranges, each its start and its end; the lists' counts. Kinds are l, a
// listing, t, a two-way operation, j, a join, and s, a selection. A dot stands where there is no range or list. A letter
// stands for a number: a and z for the least and the greatest point, M for 2^32 - 1, c for 255, p, q and h for 16, 17 and 128,
// k, K and X for 2,047, 2,048 and 2,049.
pub(crate) const FEW: [&str; 48] = [
    "j1 .. .. .. ...",
    "l0 .. .. .. ...",
    "t0 .. .. .. ...",
    "t0 .. .. .. 00.",
    "s0 .. .. .. 1..",
    "s0 .. .. .. M1.",
    "t0 15 67 89 3..",
    "t0 15 67 89 21.",
    "t0 15 67 89 111",
    "j5 15 67 89 111",
    "s0 15 67 89 3..",
    "j1 15 67 89 30.",
    "j1 15 67 89 03.",
    "l0 15 69 .. 101",
    "l0 15 69 .. 1..",
    "l0 15 69 .. 111",
    "l0 15 69 .. ...",
    "l0 15 69 .. M3.",
    "l0 15 79 .. 2..",
    "l0 15 69 .. 2..",
    "l0 15 59 .. 2..",
    "l0 15 32 .. 2..",
    "l0 15 76 .. 2..",
    "l0 32 15 .. 2..",
    "l0 69 15 .. 2..",
    "l0 11 22 .. 2..",
    "l0 15 15 .. 2..",
    "t0 15 59 .. 11.",
    "t0 69 15 .. 11.",
    "t0 15 32 .. 11.",
    "t0 15 12 23 12.",
    "t0 15 12 32 12.",
    "t0 15 56 98 21.",
    "t0 15 98 56 21.",
    "l0 aa zz .. 2..",
    "l0 az zz .. 2..",
    "l0 aa za .. 2..",
    "t0 az az .. 11.",
    "l0 zz aa .. 2..",
    "j0 15 69 .. 2..",
    "j1 15 69 .. 2..",
    "j5 15 69 .. 2..",
    "j6 15 69 .. 2..",
    "jc 15 69 .. 2..",
    "j6 15 54 .. 2..",
    "j6 15 69 .. 1..",
    "j0 32 32 .. 2..",
    "j1 33 32 .. 2..",
];

// A case with columns of any length: kind and combiner; how many starts, ends and values; the last start and the last end; how
// many lists; the first list's count, and that of each other. The range at place i is [i..i] but for the last.
pub(crate) const MANY: [&str; 17] = [
    "s0 000 00 p 00",
    "s0 000 00 q 00",
    "l0 222 11 p MM",
    "l0 122 01 1 20",
    "l0 212 10 1 20",
    "l0 221 11 1 20",
    "l0 112 00 1 10",
    "l0 KKK kk 1 K0",
    "j4 KKK kk p hh",
    "l0 XXX KK 1 X0",
    "l0 KKK 0k 1 K0",
    "l0 KKK k0 1 K0",
    "l0 KKK 0k 2 k1",
    "t0 XX1 K0 q 11",
    "t0 XX1 K0 p 11",
    "j0 XX1 K0 p 11",
    "j0 XXX K0 1 X0",
];

// The letter of a case at a place.
pub(crate) fn letter(case: &str, place: usize) -> u8 {
    case.as_bytes().get(place).copied().unwrap_or(b'.')
}

pub(crate) fn number(letter: u8) -> u32 {
    match letter {
        b'M' => 4294967295,
        b'c' => 255,
        b'p' => 16,
        b'q' => 17,
        b'h' => 128,
        b'k' => 2047,
        b'K' => 2048,
        b'X' => 2049,
        _ => letter as u32 % 16,
    }
}

pub(crate) fn size(letter: u8, most: usize) -> usize
    ensures { result ≤ most }
{
    (number(letter) as usize).min(most)
}

// How many of the letters stand before the first dot.
pub(crate) fn written(all: &[u8]) -> usize
    ensures { result ≤ length all.now }
{
    all.iter().position(|x| *x == b'.').unwrap_or(all.len())
}

pub(crate) fn kind(case: &str) -> Kind {
    match letter(case, 0) {
        b'l' => Kind::Listing,
        b't' => Kind::TwoWay,
        b'j' => Kind::Combining(known((number(letter(case, 1)) % 256) as u8)),
        _ => Kind::Selection,
    }
}
