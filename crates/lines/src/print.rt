// Numbers, and lists of them or of anything that is displayed, on standard output. It rests on std's printing, which lays what it prints into a buffer
// of its own; a list is laid into a larger one first, so that a long one takes few writes. A write that fails is let go, and what is behind it is still
// written.
ghost use Rattle.std.specs.Prelude.{◌≡◌, ◌≤◌};
ghost use Rattle.lines.specs.declared.print.TheConstants.{SPACE};

use std::fmt::{self, Display, Write};

// The bytes of that buffer.
const SPACE: usize = 4096;

// Lays a byte behind n others, and answers how many there are then. Where there is no space it is dropped.
#[inline]
fn lay_byte(b: u8, bytes: &mut [u8; SPACE], n: usize) -> usize
    ensures { result ≤ SPACE }
{
    if n < SPACE {
        bytes[n] = b;
        return n + 1;
    }
    SPACE
}

// Lays a number's decimal digits behind n bytes. (The place goes from call to call: in the struct it would be stored and read again behind each digit.)
fn lay_digits(x: u64, bytes: &mut [u8; SPACE], n: usize) -> usize
    ensures { result ≤ SPACE }
{
    let before = if 9 < x {
        lay_digits(x / 10, bytes, n)
    } else {
        n
    };
    lay_byte(b'0' + (x % 10) as u8, bytes, before)
}

// Standard output behind the buffer. (std's own writers behind a buffer are on the heap.)
#[derive(Drop)]
struct Text<'a, R> {
    rt: &'a R,
    bytes: [u8; SPACE],
    n: usize, // how many of them are laid and not written yet
    ghost inside: { n ≤ SPACE },
}

impl<'a, R: Print> Text<'a, R> {
    fn new(rt: &'a R) -> Self {
        Text {
            rt,
            bytes: [0; SPACE],
            n: 0,
        }
    }

    // Writes what was laid.
    fn send(&mut self)
        ensures { self.new.n ≡ 0 }
    {
        let _ = self.rt.write_all(&self.bytes[..self.n]);
        self.n = 0;
    }

    // Lays a byte behind the others.
    fn push(&mut self, b: u8) {
        if self.n == SPACE {
            self.send();
        }
        self.bytes[self.n] = b;
        self.n += 1;
    }

    // Lays a number. (By hand: through Display a list of zeros took three times as long.)
    #[inline]
    fn number(&mut self, x: u64) {
        self.n = lay_digits(x, &mut self.bytes, self.n);
    }

    // Lays a blank and a number, behind a write if 20 digits and a blank may find no space.
    #[inline]
    fn next_number(&mut self, x: u64) {
        if SPACE - 21 < self.n {
            self.send();
        }
        let n = lay_byte(b' ', &mut self.bytes, self.n);
        self.n = lay_digits(x, &mut self.bytes, n);
    }

    // Ends the line, and writes it.
    fn end(mut self) {
        self.push(b'\n');
        self.send();
    }
}

impl<R: Print> Write for Text<'_, R> {
    fn write_str(&mut self, s: &str) -> fmt::Result {
        for b in s.as_bytes() {
            self.push(*b);
        }
        Ok(())
    }
}

// A list with blanks between its items, to the line's end. (Of numbers of up to 64 bits without a sign, `numbers` prints the same in less time.)
pub fn list<T: Display>(rt: &impl Print, items: &[T]) {
    let mut text = Text::new(rt);
    if let Some((first, rest)) = items.split_first() {
        let _ = write!(text, "{first}");
        for item in rest {
            let _ = write!(text, " {item}");
        }
    }
    text.end();
}

// A list of such numbers likewise.
pub fn numbers<T: Copy + Into<u64>>(rt: &impl Print, items: &[T]) {
    let mut text = Text::new(rt);
    if let Some((first, others)) = items.split_first() {
        text.number((*first).into());
        for item in others {
            text.next_number((*item).into());
        }
    }
    text.end();
}

// Bytes in hexadecimal, to the line's end.
pub fn hex(rt: &impl Print, bytes: &[u8]) {
    let mut text = Text::new(rt);
    for byte in bytes {
        let _ = write!(text, "{byte:02x}");
    }
    text.end();
}

// Two numbers and a colon: the start of a line, in front of a list.
pub fn head(rt: &impl Print, a: impl Display + Drop, b: impl Display + Drop) {
    let _ = print!(rt; "{a} {b} : ");
}

// A line of text, or of numbers with what stands between them.
pub fn line(rt: &impl Print, what: impl Display + Drop) {
    let _ = rt.println(what);
}

#[cfg(test)]
mod tests {
    use super::*;
    use std::cell::Cell;
    use std::io;

    // Output that is held against a text: what of it is still to come, if it was the text so far.
    #[derive(Drop)]
    struct Held<'a>(Cell<Option<&'a [u8]>>);

    impl Print for Held<'_> {
        fn write_all(&self, bytes: &[u8]) -> io::Result<()> {
            self.0
                .set(self.0.get().and_then(|text| text.strip_prefix(bytes)));
            Ok(())
        }

        // A list writes its bytes itself: what is printed otherwise is not the text.
        fn print<D: Display + Drop>(&self, _: D) -> io::Result<()> {
            self.write_all(b"?")
        }

        fn println<D: Display + Drop>(&self, _: D) -> io::Result<()> {
            self.write_all(b"?")
        }
    }

    // Whether the whole text was written, and nothing else.
    fn ended(page: &Held<'_>) -> bool {
        matches!(page.0.get(), Some([]))
    }

    #[test]
    fn lists(rt: HostRuntime) {
        let page = Held(Cell::new(Some(b"\n-1 0 9223372036854775807\na  b c\n7\n")));
        list::<u8>(&page, &[]);
        list(&page, &[-1i64, 0, i64::MAX]);
        list(&page, &["a", "", "b c"]);
        list(&page, &[7u8]);
        assert!(rt; ended(&page));
    }

    #[test]
    fn numbers_as_a_list(rt: HostRuntime) {
        let text = b"0 9 10 18446744073709551615\n0 9 10 18446744073709551615\n";
        let page = Held(Cell::new(Some(text)));
        let items = [0, 9, 10, u64::MAX];
        list(&page, &items);
        numbers(&page, &items);
        assert!(rt; ended(&page));
    }

    #[test]
    fn longer_than_the_buffer(rt: HostRuntime) {
        let mut text = [0; 9000];
        for item in text.chunks_exact_mut(3) {
            item.copy_from_slice(b"-1 ");
        }
        text[8999] = b'\n';
        let page = Held(Cell::new(Some(&text)));
        list(&page, &[-1i8; 3000]);
        assert!(rt; ended(&page));
    }
}
