// What the form checker finds for seats and for instants, a case to a line: the case as its table has it, and what is found.

#![tactic(auto)]

mod cases;
mod judged;

use cases::{FEW, MANY};
use judged::{judged_few, judged_many};
use rules::Refusal;
use std::fmt;

#[derive(Drop)]
struct Found(Result<(), Refusal>);

impl fmt::Display for Found {
    fn fmt<W: fmt::Write>(&self, f: &mut fmt::Formatter<W>) -> fmt::Result {
        match self.0 {
            Ok(_) => f.write_str("sound"),
            Err(refusal) => write!(f, "refused {} {}", refusal.code(), refusal.number()),
        }
    }
}

// A line that cannot be written is passed over.
fn main(rt: HostRuntime) {
    let (mut seat_starts, mut seat_ends) = ([0u32; 2049], [0u32; 2049]);
    let (mut instant_starts, mut instant_ends) = ([0i64; 2049], [0i64; 2049]);
    for case in FEW {
        let seats = Found(judged_few(case, &mut seat_starts, &mut seat_ends));
        let instants = Found(judged_few(case, &mut instant_starts, &mut instant_ends));
        let _ = println!(rt; "{case} seats: {seats}; instants: {instants}");
    }
    for case in MANY {
        let seats = Found(judged_many(case, &mut seat_starts, &mut seat_ends));
        let instants = Found(judged_many(case, &mut instant_starts, &mut instant_ends));
        let _ = println!(rt; "{case} seats: {seats}; instants: {instants}");
    }
}
