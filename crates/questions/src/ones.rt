// Buffers of ones, in which zeros are seen as well as what else is written; and such a buffer printed, to the line's end. It rests on lines.
use lines::print;

// A number of some width, of which all bits are one.
pub trait Ones: Copy + Into<u64> + PartialEq {
    const ONES: Self;
}

impl Ones for u8 {
    const ONES: u8 = u8::MAX;
}

impl Ones for u16 {
    const ONES: u16 = u16::MAX;
}

impl Ones for u32 {
    const ONES: u32 = u32::MAX;
}

impl Ones for u64 {
    const ONES: u64 = u64::MAX;
}

// Whether it has nothing but ones.
fn still<T: Ones>(items: &[T]) -> bool {
    items.iter().all(|item| *item == T::ONES)
}

// Its numbers; but `untouched` where it was to be left alone and still has nothing but ones.
pub fn print_list<T: Ones>(rt: &impl Print, items: &[T], alone: bool) {
    if alone && still(items) {
        print::line(rt, "untouched");
    } else {
        print::numbers(rt, items);
    }
}

// Bytes that were to be left alone.
pub fn print_alone(rt: &impl Print, bytes: &[u8]) {
    print::line(rt, if still(bytes) { "untouched" } else { "spoiled" });
}

// The first n bytes in hexadecimal, where those behind them were to be left alone.
pub fn print_front(rt: &impl Print, bytes: &[u8], n: usize) {
    match bytes.split_at_checked(n) {
        Some((front, behind)) if still(behind) => print::hex(rt, front),
        _ => print::line(rt, "spoiled"),
    }
}
