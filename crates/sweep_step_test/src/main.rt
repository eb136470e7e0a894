// Drains sweeps that are lent beside the event listing, for seats and for instants: a line for each set of lists says whether they agree.

#![tactic(auto)]

mod drained;

ghost use Rattle.std.specs.Prelude.{◌≤◌};

use drained::{Unlike, compared};
use integer::{Instant, Seat};
use std::fmt;

#[derive(Drop)]
struct Found(Result<usize, Unlike>);

impl fmt::Display for Found {
    fn fmt<W: fmt::Write>(&self, f: &mut fmt::Formatter<W>) -> fmt::Result {
        match self.0 {
            Ok(events) => write!(f, "agree on {events} events"),
            Err(Unlike::At(place)) => write!(f, "differ at {place}"),
            Err(Unlike::Refused) => f.write_str("are refused"),
        }
    }
}

// The first n ranges, in lists that the counts tell. A line that cannot be written is passed over.
fn print_set(rt: &HostRuntime, counts: &[u32], n: usize)
    requires { n ≤ 8 }
{
    let lists = counts.len();
    let seats = Found(compared::<Seat>(counts, n, &mut [0; 8], &mut [0; 8], &mut [0; 16]));
    let instants = Found(compared::<Instant>(counts, n, &mut [0; 8], &mut [0; 8], &mut [0; 16]));
    let _ = println!(rt; "{lists} lists: seats {seats}, instants {instants}");
}

fn main(rt: HostRuntime) {
    print_set(&rt, &[0], 0);
    print_set(&rt, &[3], 3);
    print_set(&rt, &[3, 2], 5);
    print_set(&rt, &[3, 2, 3], 8);
    print_set(&rt, &[0, 3, 0, 2, 3, 0], 8);
    print_set(&rt, &[1, 1, 1, 1, 1, 1, 1, 1], 8);
    print_set(&rt, &[1, 0, 1, 0, 1, 0, 1, 0, 1, 0, 1, 0, 1, 0, 0, 1], 8);
}
