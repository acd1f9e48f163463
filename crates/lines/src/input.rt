// Standard input, line by line. It rests on std's reader, of which no contract says which bytes it gives.
ghost use Rattle.std.specs.Prelude.{◌≤◌, length, IfSome};
ghost use Rattle.lines.specs.declared.input.TheConstants.{SIZE};

use std::io::Read;

// The bytes of a chunk, and of a buffer for a line.
pub const SIZE: usize = 65536;

// The lines of a reader. (std's own lines are on the heap.)
#[derive(Drop)]
pub struct Lines<'a, R> {
    from: &'a mut R,
    chunk: [u8; SIZE],
    at: usize, // the next byte is here in the chunk,
    got: usize, // which has so many
    ended: bool, // nothing more is read
    ghost inside: { got ≤ SIZE },
}

impl<'a, R: Read> Lines<'a, R> {
    pub fn new(from: &'a mut R) -> Self {
        Lines {
            from,
            chunk: [0; SIZE],
            at: 0,
            got: 0,
            ended: false,
        }
    }

    // Reads the next chunk: one call, which takes what is there and waits only where nothing is. A read that fails ends the input.
    fn refill(&mut self) {
        self.got = self.from.read(&mut self.chunk).unwrap_or(0);
        self.at = 0;
        self.ended = self.got == 0;
    }

    fn next_byte(&mut self) -> Option<u8> {
        if self.at >= self.got {
            self.refill();
        }
        let b = *self.chunk[..self.got].get(self.at)?;
        self.at += 1;
        Some(b)
    }

    // The next line, without its end, if there is one; what its buffer does not hold is dropped. Nothing says that a line ever ends, so its bytes are counted.
    pub fn next_line<'b>(&mut self, line: &'b mut [u8]) -> Option<&'b [u8]>
        ensures { IfSome result (λ l. length l.now ≤ length line.old) }
    {
        if self.ended {
            return None;
        }
        let mut n = 0;
        for _ in 0..u64::MAX {
            match self.next_byte() {
                None | Some(b'\n') => break,
                Some(b) => {
                    if n < line.len() {
                        line[n] = b;
                        n += 1;
                    }
                }
            }
        }
        Some(&line[..n])
    }
}
