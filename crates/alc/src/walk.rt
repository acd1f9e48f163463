// The members of a set of lines, ascending: bit i of a word is line i. It rests on nothing.
// Which list that is says specs/Bits.antt (members).
ghost use Rattle.std.specs.Prelude.{◌≡◌};

// The members that are left.
#[derive(Clone, Copy)]
pub struct Members {
    pub left: u32,
}

impl Members {
    pub fn of(set: u32) -> Self
        ensures { result.left ≡ set }
    {
        Members { left: set }
    }
}

impl Iterator for Members {
    type Item = usize;

    ghost use Rattle.std.specs.Iterator.{YieldsFirst, item_count};
    ghost use Rattle.alc.specs.Bits.{members};

    ghost next_gives = { YieldsFirst (λ s. members 32 s.left) };

    ghost remaining = { item_count (λ s. members 32 s.left) };

    // The lowest, which is taken out.
    fn next(&mut self) -> Option<usize> {
        if self.left == 0 {
            return None;
        }
        let i = self.left.trailing_zeros();
        self.left -= 1u32 << i;
        Some(i as usize)
    }
}
