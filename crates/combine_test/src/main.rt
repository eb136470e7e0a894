// Combiners at their ends. Each case names the combiners whose answers are right.

#![tactic(auto)]

use combine::combine;

// What each combiner is to answer.
#[derive(Clone, Copy)]
struct Want {
    sum: i64,
    largest: i64,
    smallest: i64,
    count: i64,
    mean: i64,
}

fn main(rt: HostRuntime) {
    no_values(&rt);
    few_values(&rt);
    sixteen_values(&rt);
    far_apart(&rt);
    unknown_numbers(&rt);
}

fn no_values(rt: &impl Print) {
    let nothing = Want {
        sum: 0,
        largest: 0,
        smallest: 0,
        count: 0,
        mean: 0,
    };
    tell(rt, "no lists", 0, &[7; 16], &[true; 16], nothing);
    tell(rt, "no list present", 16, &[7; 16], &[false; 16], nothing);
}

fn few_values(rt: &impl Print) {
    let mut current = [9; 16];
    let mut present = [false; 16];
    current[3] = -3;
    present[3] = true;
    let one = Want {
        sum: -3,
        largest: -3,
        smallest: -3,
        count: 1,
        mean: -3,
    };
    tell(rt, "one value among leftovers", 16, &current, &present, one);
    current[5] = 0;
    present[5] = true;
    let two = Want {
        sum: -3,
        largest: 0,
        smallest: -3,
        count: 2,
        mean: -1,
    };
    tell(rt, "-3 and 0", 6, &current, &present, two);
    tell(rt, "-3 without the list of 0", 5, &current, &present, one);
    current[3] = 3;
    let up = Want {
        sum: 3,
        largest: 3,
        smallest: 0,
        count: 2,
        mean: 1,
    };
    tell(rt, "3 and 0", 6, &current, &present, up);
}

fn sixteen_values(rt: &impl Print) {
    let (low, high, all) = ([i32::MIN; 16], [i32::MAX; 16], [true; 16]);
    let least = Want {
        sum: -34359738368,
        largest: -2147483648,
        smallest: -2147483648,
        count: 16,
        mean: -2147483648,
    };
    tell(rt, "sixteen of the least", 16, &low, &all, least);
    tell(rt, "seventeen lists are sixteen", 17, &low, &all, least);
    let greatest = Want {
        sum: 34359738352,
        largest: 2147483647,
        smallest: 2147483647,
        count: 16,
        mean: 2147483647,
    };
    tell(rt, "sixteen of the greatest", 16, &high, &all, greatest);
}

fn far_apart(rt: &impl Print) {
    let mut current = [1; 16];
    current[0] = i32::MIN;
    current[15] = i32::MAX;
    let ends = Want {
        sum: 13,
        largest: 2147483647,
        smallest: -2147483648,
        count: 16,
        mean: 0,
    };
    tell(
        rt,
        "the first and the last of sixteen",
        16,
        &current,
        &[true; 16],
        ends,
    );
}

fn unknown_numbers(rt: &impl Print) {
    say(
        rt,
        "unknown numbers",
        &[
            ("0", is_unknown(0)),
            ("6", is_unknown(6)),
            ("255", is_unknown(255)),
        ],
    );
}

fn tell(
    rt: &impl Print,
    what: &str,
    lists: usize,
    current: &[i32; 16],
    present: &[bool; 16],
    want: Want,
) {
    let answer = |combiner: u8| combine(combiner, lists, current, present);
    say(
        rt,
        what,
        &[
            ("sum", answer(1) == Some(want.sum)),
            ("largest", answer(2) == Some(want.largest)),
            ("smallest", answer(3) == Some(want.smallest)),
            ("count", answer(4) == Some(want.count)),
            ("mean", answer(5) == Some(want.mean)),
        ],
    );
}

// Says what a case is, and which of its names are right. What cannot be written is passed over.
fn say(rt: &impl Print, what: &str, names: &[(&str, bool)]) {
    let _ = print!(rt; "{what}:");
    for (name, right) in names {
        if *right {
            let _ = print!(rt; " {name}");
        }
    }
    let _ = println!(rt; "");
}

fn is_unknown(combiner: u8) -> bool {
    combine(combiner, 16, &[7; 16], &[true; 16]).is_none()
}
