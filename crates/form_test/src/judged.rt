// The cases over columns of points of one width, each in room that is lent.

ghost use Rattle.std.specs.Prelude.{◌≡◌, ◌≤◌, length};

use crate::cases::{kind, letter, number, size, written};
use form::judge;
use integer::Integer;
use rules::{Lists, Refusal};

fn point<P: Integer + From<u32>>(letter: u8) -> P {
    match letter {
        b'a' => P::least(),
        b'z' => P::greatest(),
        _ => P::from(number(letter)),
    }
}

pub(crate) fn judged_few<P: Integer + From<u32>>(
    case: &str,
    starts: &mut [P],
    ends: &mut [P],
) -> Result<(), Refusal>
    requires { (length starts.old ≡ 2049) × (length ends.old ≡ 2049) }
{
    let ranges = written(&[letter(case, 3), letter(case, 6), letter(case, 9)]);
    for i in 0..ranges {
        starts[i] = point(letter(case, 3 + 3 * i));
        ends[i] = point(letter(case, 4 + 3 * i));
    }
    let of_lists = [letter(case, 12), letter(case, 13), letter(case, 14)];
    let lent = Lists {
        starts: &starts[..ranges],
        ends: &ends[..ranges],
        values: &[100, -20, 0][..ranges],
        counts: &of_lists.map(number)[..written(&of_lists)],
    };
    judge(kind(case), lent)
}

// Writes the points from 0 on, of which the last is another.
fn ascend<P: From<u32> + Copy>(points: &mut [P], last: u32)
    requires { length points.old ≤ 2049 }
{
    for (i, point) in points.iter_mut().enumerate() {
        *point = P::from(i as u32);
    }
    if let Some(point) = points.last_mut() {
        *point = P::from(last);
    }
}

pub(crate) fn judged_many<P: Integer + From<u32>>(
    case: &str,
    starts: &mut [P],
    ends: &mut [P],
) -> Result<(), Refusal>
    requires { (length starts.old ≡ 2049) × (length ends.old ≡ 2049) }
{
    let a = size(letter(case, 3), 2049);
    let b = size(letter(case, 4), 2049);
    let c = size(letter(case, 5), 2049);
    let lists = size(letter(case, 10), 17);
    ascend(&mut starts[..a], number(letter(case, 7)));
    ascend(&mut ends[..b], number(letter(case, 8)));
    let mut counts: [u32; 17] = [number(letter(case, 13)); 17];
    counts[0] = number(letter(case, 12));
    let lent = Lists {
        starts: &starts[..a],
        ends: &ends[..b],
        values: &[7; 2049][..c],
        counts: &counts[..lists],
    };
    judge(kind(case), lent)
}
