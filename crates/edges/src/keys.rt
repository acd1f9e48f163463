// The edges from one element as keys: each once and ascending. It rests on alc's lists alone; specs/Keys.antt says what a key more makes of them.
ghost use Rattle.std.specs.Prelude.{◌≤◌, take};
ghost use Rattle.alc.specs.Lists.{Ascending};

// At most 32 lines ask, and there are at most 16 role assertions.
pub const MOST: usize = 48;

// The list is kept by hand: there is no heap, so that it has its room at once.
#[derive(Clone, Copy)]
pub struct Edges {
    pub keys: [u32; MOST],
    pub count: usize,
    pub ghost few: { count ≤ 48 },
    pub ghost sorted: { ∥ Ascending (take count keys) ∥₁ },
}

impl Edges {
    ghost use Rattle.std.specs.Prelude.{◌≡◌, [], ◌+◌, ◌<◌};
    ghost use Rattle.edges.specs.Keys.{keys_of, insert_key};

    pub fn new() -> Self
        ensures { (keys_of result ≡ []) × (result.count ≡ 0) }
    {
        Edges {
            keys: [0; MOST],
            count: 0,
        }
    }

    #[inline]
    pub fn as_slice(&self) -> &[u32]
        ensures { result.now ≡ keys_of self.now }
    {
        &self.keys[..self.count]
    }

    // With one key more, unless it is there: from its place on each key goes one place further.
    pub fn with(self, key: u32) -> Self
        requires { self.count < 48 }
        ensures { (keys_of result ≡ insert_key key (keys_of self)) × (result.count ≤ self.count + 1) }
    {
        let mut keys = self.keys;
        let mut more = key;
        for (i, &here) in self.as_slice().iter().enumerate() {
            if here == more {
                return Edges {
                    keys,
                    count: self.count,
                };
            }
            if more < here {
                keys[i] = more;
                more = here;
            }
        }
        keys[self.count] = more;
        Edges {
            keys,
            count: self.count + 1,
        }
    }
}
