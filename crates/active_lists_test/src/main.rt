// Turns lists on and off by scripts of letters, a to p for the sixteen lists, and after each letter writes the highest active list, how many are active,
// as 0 to 9 and A to G, and whether that is odd: a line of each for a script.

#![tactic(auto)]

ghost use Rattle.std.specs.Prelude.{◌<◌, ◌≡◌, false, length, get_or};
ghost use Rattle.active_lists.specs.Active.{Stands};
ghost use Rattle.active_lists.specs.Kept.{seen};

use active_lists::Active;

// Thirty-two letters and the line's end.
type Line = [u8; 33];

const EMPTY: Line = [b'\n'; 33];

// A line that cannot be written is passed over.
fn say(rt: &impl Print, line: &Line) {
    let _ = rt.write_all(line);
}

fn list_of(letter: u8) -> usize
    ensures { result < 16 }
{
    match letter {
        b'a'..=b'p' => (letter - b'a') as usize,
        _ => 0,
    }
}

fn letter_of(list: usize) -> u8 {
    match list {
        0..=15 => b'a' + list as u8,
        _ => b'?',
    }
}

// A number's digit in base 17, which has none for 17 and more.
fn digit(n: usize) -> u8 {
    b"0123456789ABCDEFG".get(n).copied().unwrap_or(b'?')
}

// Turns a list on, or off if it is on.
fn turn(active: &mut Active, on: &mut [bool; 16], list: usize)
    requires { (list < 16) × Stands (seen active.old) (λ i. get_or on.old i false) }
    ensures { Stands (seen active.new) (λ i. get_or on.new i false) }
{
    if on[list] {
        active.deactivate(list);
    } else {
        active.activate(list);
    }
    on[list] = !on[list];
}

// The letter of the highest active list, or a point where none is.
fn top(active: &mut Active) -> u8
    ensures { seen active.new ≡ seen active.old }
{
    active.highest().map_or(b'.', letter_of)
}

fn play(rt: &impl Print, script: &str)
    requires { length script.now ≡ 32 }
{
    let mut active = Active::idle();
    let mut on = [false; 16];
    let (mut tops, mut numbers, mut odds) = (EMPTY, EMPTY, EMPTY);
    for (i, letter) in script.bytes().enumerate() {
        turn(&mut active, &mut on, list_of(letter));
        numbers[i] = digit(active.how_many());
        odds[i] = digit(active.odd() as usize);
        tops[i] = top(&mut active);
    }
    let _ = println!(rt; "{script}");
    say(rt, &tops);
    say(rt, &numbers);
    say(rt, &odds);
}

fn main(rt: HostRuntime) {
    play(&rt, "abcdefghijklmnopabcdefghijklmnop");
    play(&rt, "ponmlkjihgfedcbaponmlkjihgfedcba");
    play(&rt, "afkpejodinchmbglhcmbglafkpejodin");
    play(&rt, "hchchchpphapahmemehbabapaphmemea");
}
