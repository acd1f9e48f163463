// The seeds of a model: the first of the records, which are the elements behind the individuals. It rests on tableau's records.
ghost use Rattle.std.specs.Prelude.{◌≤◌, length};

use alc::Label;
use tableau::records::{find, word_of};

// `seeds` records are the elements from `first` on.
#[derive(Clone, Copy)]
pub struct Recorded<'a> {
    pub records: &'a [u64],
    pub seeds: usize,
    pub first: usize,
    pub ghost fits: { seeds ≤ length records.now },
    pub ghost few: { seeds ≤ 4096 },
    pub ghost behind: { first ≤ 8 },
}

impl<'a> Recorded<'a> {
    ghost use Rattle.std.specs.Prelude.{◌≡◌, ◌<◌};
    ghost use Rattle.edges.specs.Keys.{element_of};

    // The element of a seed; what is no seed is put behind the last.
    pub fn element(&self, seed: Label) -> usize
        ensures { (result ≡ element_of self.now seed) × (result < 8192) }
    {
        self.first + find(self.records, self.seeds, word_of(seed)).unwrap_or(self.seeds)
    }
}
