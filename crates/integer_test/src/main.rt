// Points at the ends of both widths. Each line that is written names a fact and says whether it holds.

#![tactic(auto)]

ghost use Rattle.std.specs.Prelude.{◌+◌, ◌<◌};

use integer::{Instant, Integer, Seat};

// The first two points of a width and the last two, as the language has them.
#[derive(Clone, Copy)]
struct Ends<P> {
    least: P,
    second: P,
    last_but_one: P,
    greatest: P,
}

// Facts of the points of one width, and whether they hold.
fn facts<P: Integer + PartialEq>(ends: Ends<P>) -> [(&'static str, bool); 14]
    requires up { (P.width.key ends.least + 1 < P.width.points) × (P.width.key ends.last_but_one + 1 < P.width.points) }
    requires down { (0 < P.width.key ends.second) × (0 < P.width.key ends.greatest) }
{
    let (least, greatest) = (P::least(), P::greatest());
    [
        ("least", least == ends.least),
        ("greatest", greatest == ends.greatest),
        ("least < greatest", least.less(greatest)),
        ("not greatest < least", !greatest.less(least)),
        ("not greatest < greatest", !greatest.less(greatest)),
        ("greatest = greatest", greatest.same(greatest)),
        ("not least = greatest", !least.same(greatest)),
        ("least + 1", ends.least.add_one() == ends.second),
        (
            "up to greatest",
            ends.last_but_one.add_one() == ends.greatest,
        ),
        ("greatest - 1", ends.greatest.sub_one() == ends.last_but_one),
        ("down to least", ends.second.sub_one() == ends.least),
        (
            "after least",
            ends.least.checked_add_one() == Some(ends.second),
        ),
        (
            "to greatest",
            ends.last_but_one.checked_add_one() == Some(ends.greatest),
        ),
        ("past greatest", ends.greatest.checked_add_one().is_none()),
    ]
}

// A line that cannot be written is passed over.
fn print(rt: &impl Print, width: &str, facts: [(&'static str, bool); 14]) {
    let _ = println!(rt; "{width}");
    for (fact, holds) in facts {
        let _ = println!(rt; "{fact} {}", if holds { "yes" } else { "no" });
    }
}

#[tactic(auto, unfolding(rules::specs::Lists::key64))]
fn main(rt: HostRuntime) {
    let seats: Ends<Seat> = Ends {
        least: u32::MIN,
        second: u32::MIN + 1,
        last_but_one: u32::MAX - 1,
        greatest: u32::MAX,
    };
    let instants: Ends<Instant> = Ends {
        least: i64::MIN,
        second: i64::MIN + 1,
        last_but_one: i64::MAX - 1,
        greatest: i64::MAX,
    };
    print(&rt, "seat", facts(seats));
    print(&rt, "instant", facts(instants));
}
