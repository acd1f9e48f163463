// Bytes laid one behind another in fixed memory, which contracts see as their list; and numbers laid as their bytes.
// What these are stands in alc's specs/Writing.antt (groups, bytes_for).
ghost use Rattle.std.specs.Prelude.{◌≡◌, ◌<◌, ◌≤◌, ◌+◌, ◌*◌, [], ◌∷◌, ◌++◌, length, take};
ghost use Rattle.alc.specs.Writing.{groups, bytes_for};

use std::marker::Model;

// A form has 389 numbers at most, each of at most three bytes.
pub const MOST_BYTES: usize = 1167;

// The first `count` bytes are laid.
#[derive(Drop)]
pub struct Laid {
    bytes: [u8; MOST_BYTES],
    count: usize,
}

impl Model for Laid {
    ghost use Rattle.std.specs.Prelude.{List, ℕ, ◌≤◌, take};

    ghost Value = { List ℕ };

    ghost view = { λ l. take l.count l.bytes };

    ghost invariant = { λ l. l.count ≤ 1167 };
}

// The number's groups, laid from a place on; and the place behind them.
fn lay_number(n: u16, bytes: &mut [u8], at: usize) -> usize
    requires { at + 3 ≤ length bytes.old }
    ensures { (take result bytes.new ≡ take at bytes.old ++ groups n) × (result ≤ at + 3) }
{
    if n < 128 {
        bytes[at] = n as u8;
        return at + 1;
    }
    bytes[at] = (n % 128 + 128) as u8;
    if n < 16384 {
        bytes[at + 1] = (n / 128) as u8;
        return at + 2;
    }
    bytes[at + 1] = (n / 128 % 128 + 128) as u8;
    bytes[at + 2] = (n / 16384) as u8;
    at + 3
}

impl Laid {
    pub fn new() -> Self
        ensures { result ≡ [] }
    {
        Laid {
            bytes: [0; MOST_BYTES],
            count: 0,
        }
    }

    pub fn push(&mut self, byte: u8)
        requires { length self.old < 1167 }
        ensures { self.new ≡ self.old ++ byte ∷ [] }
    {
        self.bytes[self.count] = byte;
        self.count += 1;
    }

    // The groups of each. (The place stands in a local: in the struct it would be stored and read again behind each byte.)
    pub(crate) fn extend(&mut self, numbers: &[u16])
        requires { length self.old + 3 * length numbers.now ≤ 1167 }
        ensures { (self.new ≡ self.old ++ bytes_for numbers.now) × (length self.new ≤ length self.old + 3 * length numbers.now) }
    {
        let mut at = self.count;
        for n in numbers {
            at = lay_number(*n, &mut self.bytes, at);
        }
        self.count = at;
    }

    pub fn as_slice(&self) -> &[u8]
        ensures { result.now ≡ self.now }
    {
        &self.bytes[..self.count]
    }
}
