// A program: each function that C and Rust are handed is called over sheets of document 01's bench. It prints the number returned, what is put
// into the places lent, and every buffer whole. All is ones first, and a part is lent, so that it is seen what is written and what is left alone.
// It rests on desk for the answers, and on lines for printing. What it prints is stored as document 01 has it.
#![tactic(auto)]

ghost use Rattle.std.specs.Prelude.{◌≤◌, length};

use desk::export::{
    bargaindune_balance, bargaindune_causes, bargaindune_satisfy, bargaindune_write,
};
use lines::print;

const P1: &[u8] = b"\x00\x00\x00\x00\x00";

const P2: &[u8] = b"\x03\x02\x00\x02\x01\x03\x01\x01\x00\x02\x01\x02\x00\x00\x00\x01\x00";

const P5: &[u8] = b"\x02\x00\x06\x00\x00\x01\x00\x01\x00\x00\x00";

// Three some lines.
const P6: &[u8] =
    b"\x09\x02\x00\x02\x01\x06\x00\x00\x06\x00\x01\x04\x00\x01\x06\x00\x04\x03\x05\x04\x02\x03\x04\x07\x06\x00\x01\x01\x00\x08\x00";

const P9: &[u8] = b"\x03\x02\x00\x02\x01\x02\x02\x03\x00\x01\x01\x02\x00\x02\x01\x01\x00\x00\x00";

// P9 with a second port.
const TWO_PORTS: &[u8] =
    b"\x03\x02\x00\x02\x01\x02\x02\x03\x00\x01\x01\x02\x00\x02\x02\x01\x00\x00\x00";

const P11: &[u8] = b"\x04\x02\x00\x02\x01\x06\x00\x01\x01\x02\x00\x02\x01\x03\x01\x01\x00\x00\x00";

// A line that names itself.
const ITSELF: &[u8] = b"\x01\x03\x00";

// P1 with one byte too many.
const LEFT_OVER: &[u8] = b"\x00\x00\x00\x00\x00\x00";

// Lends a room of records with as many marks, and so many places of a buffer for the result. It prints what was returned and what it carries, then
// both records, both marks and the buffer.
fn ask<T: Copy + Into<u64>, F: FnOnce(&mut [u64], &mut [u8], &mut [T], &mut u64) -> u64>(
    rt: &impl Print,
    room: usize,
    places: usize,
    buffer: &mut [T],
    question: F,
)
    requires room_bound { room ≤ 2 }
    requires place_bound { places ≤ length buffer.old }
    requires callable { F.IsAlwaysCallable question }
{
    let mut records = [u64::MAX; 2];
    let mut marks = [u8::MAX; 2];
    let mut carried = u64::MAX;
    let number = question(
        &mut records[..room],
        &mut marks[..room],
        &mut buffer[..places],
        &mut carried,
    );
    print::head(rt, number, carried);
    print::head(rt, records[0], records[1]);
    print::head(rt, marks[0], marks[1]);
    print::numbers(rt, buffer);
}

fn satisfy(rt: &impl Print, sheet: &[u8], room: usize, words: usize)
    requires { (room ≤ 2) × (words ≤ 12) }
{
    let mut model = [u32::MAX; 12];
    ask(
        rt,
        room,
        words,
        &mut model,
        |records, marks, model, carried| {
            bargaindune_satisfy(sheet, records, marks, model, carried)
        },
    );
}

fn causes(rt: &impl Print, sheet: &[u8], port: u64, class: u64, room: usize, slots: usize)
    requires { (room ≤ 2) × (slots ≤ 4) }
{
    let mut list = [u16::MAX; 4];
    ask(
        rt,
        room,
        slots,
        &mut list,
        |records, marks, list, carried| {
            bargaindune_causes(sheet, port, class, records, marks, list, carried)
        },
    );
}

fn balance(rt: &impl Print, sheet: &[u8], room: u64) {
    let mut carried = u64::MAX;
    let mut left = -1;
    let number = bargaindune_balance(sheet, room, &mut carried, &mut left);
    print::head(rt, number, carried);
    print::line(rt, left);
}

// Lends so many bytes.
fn write(rt: &impl Print, numbers: &[u16], bytes: usize)
    requires { bytes ≤ 8 }
{
    let mut out = [u8::MAX; 8];
    let mut carried = u64::MAX;
    let number = bargaindune_write(numbers, &mut out[..bytes], &mut carried);
    print::head(rt, number, carried);
    print::hex(rt, &out);
}

// P5 without room, with it, and with a model buffer that is too short.
fn satisfy_all(rt: &impl Print) {
    satisfy(rt, P1, 0, 12);
    satisfy(rt, P2, 0, 12);
    satisfy(rt, P5, 0, 12);
    satisfy(rt, P5, 1, 12);
    satisfy(rt, P5, 1, 9);
    satisfy(rt, ITSELF, 2, 12);
    satisfy(rt, LEFT_OVER, 2, 12);
}

// P9's class 2, and again with a list buffer that is too short; its class 3 and its port 2, which are not there; class 2 of a second port;
// P11's class 3.
fn causes_all(rt: &impl Print) {
    causes(rt, P9, 0, 2, 0, 4);
    causes(rt, P9, 0, 2, 0, 1);
    causes(rt, P9, 0, 3, 2, 4);
    causes(rt, P9, 2, 0, 2, 4);
    causes(rt, TWO_PORTS, 1, 2, 0, 4);
    causes(rt, P11, 0, 3, 1, 4);
    causes(rt, ITSELF, 0, 0, 2, 4);
}

// P5 at zero; P6, 10 below zero; and too much room.
fn balance_all(rt: &impl Print) {
    balance(rt, P1, 4096);
    balance(rt, P5, 1);
    balance(rt, P6, 2);
    balance(rt, ITSELF, 2);
    balance(rt, ITSELF, 4097);
}

// P1 with a buffer that is longer, just long enough and too short; one number too few, and one too many; a name that needs a third byte,
// and one over the limit with no buffer at all.
fn write_all(rt: &impl Print) {
    write(rt, &[0; 5], 8);
    write(rt, &[0; 5], 5);
    write(rt, &[0; 5], 4);
    write(rt, &[0; 4], 8);
    write(rt, &[0; 6], 8);
    write(rt, &[1, 2, 16384, 0, 0, 0, 0], 8);
    write(rt, &[1, 2, 32, 0, 0, 0, 0], 0);
}

fn main(rt: HostRuntime) {
    satisfy_all(&rt);
    causes_all(&rt);
    balance_all(&rt);
    write_all(&rt);
}
