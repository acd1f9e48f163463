// Every byte string of length 0 to 2 through the reader: how often each refusal comes at each place, as "number place times".
// tools/slices.py prints what is expected, by a reader of its own.
#![tactic(auto)]

use reader::read_sheet;
use sheet::reason_number;

// How often each of the numbers 0 to 8 came at each of the places 0 to 3; 0 is for what is accepted.
type Times = [[u64; 4]; 9];

// What the reader says of a string, once more.
fn count(times: &mut Times, s: &[u8]) {
    let (number, place) = match read_sheet(s) {
        Ok(_) => (0, 0),
        Err(refusal) => (reason_number(refusal.why) as usize, refusal.at),
    };
    if number < 9 && place < 4 {
        times[number][place] = times[number][place].wrapping_add(1);
    }
}

// All strings of two bytes that begin with this one.
fn count_pairs(times: &mut Times, first: u8) {
    for second in 0..=u8::MAX {
        count(times, &[first, second]);
    }
}

// The empty string, all of one byte, and all of two.
fn count_all(times: &mut Times) {
    count(times, &[]);
    for first in 0..=u8::MAX {
        count(times, &[first]);
        count_pairs(times, first);
    }
}

// What never came is left out; a write that fails is let go.
fn print_all(rt: &impl Print, times: &Times) {
    for (number, places) in times.iter().enumerate() {
        for (place, count) in places.iter().enumerate() {
            if *count != 0 {
                let _ = println!(rt; "{number} {place} {count}");
            }
        }
    }
}

fn main(rt: HostRuntime) {
    let mut times = [[0; 4]; 9];
    count_all(&mut times);
    print_all(&rt, &times);
}
