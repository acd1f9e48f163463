// Lines, rules, assertions, marks and labels as values of their own: the types and the methods that all code above uses. What they mean stands in
// specs/Sheet.antt, specs/Label.antt and specs/Seeds.antt, whose `Line`, `Rule`, `ClassAssertion`, `RoleAssertion`, `Label`, `Mark`
// and `Ask` are these very types; what the clash test looks up stands in specs/Masks.antt. The other files of specs/ are document 01 as definitions; the theorems on them stand in proofs/.
#![tactic(auto)]

pub mod walk; // the members of a set, one after the other

ghost use Rattle.std.specs.Prelude.{◌≡◌, ◌<◌, get_or};
ghost use Rattle.alc.specs.Bits.{meets, members};
ghost use Rattle.alc.specs.Lists.{any};
ghost use Rattle.alc.specs.Sheet.{Sheet};
ghost use Rattle.alc.specs.Label.{blank, add, join, has, clashes, line_of};
ghost use Rattle.alc.specs.Masks.{MasksOf};

use crate::walk::Members;

// A line of a sheet, by document 01's kinds 0 to 7. Names and roles are numbers, operands the numbers of other lines.
#[derive(Clone, Copy)]
pub enum Line {
    Top,
    Bottom,
    Name(u32),
    Not(usize),
    And(usize, usize),
    Or(usize, usize),
    Some(u32, usize),
    Only(u32, usize),
}

// The rule sub ⊑ sup.
#[derive(Clone, Copy)]
pub struct Rule {
    pub sub: usize,
    pub sup: usize,
}

#[derive(Clone, Copy)]
pub struct ClassAssertion {
    pub individual: usize,
    pub class: usize,
}

#[derive(Clone, Copy)]
pub struct RoleAssertion {
    pub role: u32,
    pub source: usize,
    pub target: usize,
}

// Each line may be marked: it holds, or it fails.
#[derive(Clone, Copy)]
pub enum Mark {
    Holds(usize),
    Fails(usize),
}

// A set of marks: bit i of `holding` is the mark that line i holds, bit i of `failing` that it fails.
#[derive(Clone, Copy, PartialEq, Eq)]
pub struct Label {
    pub holding: u32,
    pub failing: u32,
}

// What a line of a settled label asks for: a seed, along a role.
#[derive(Clone, Copy)]
pub struct Ask {
    pub role: u32,
    pub seed: Label,
}

// The masks of a sheet: all lines, the bottoms, the tops, the lines that share their name; and for each line its group.
#[derive(Clone, Copy)]
pub struct Masks {
    pub lines: u32,
    pub bottoms: u32,
    pub tops: u32,
    pub shared: u32,
    pub groups: [u32; 32],
}

// The answer of a test, with the label handed back: document 01 names this form ("test for a clash, handing the state back").
#[derive(Clone, Copy)]
pub struct Tested {
    pub label: Label,
    pub found: bool,
}

impl Label {
    pub fn blank() -> Self
        ensures { result ≡ blank }
    {
        Label {
            holding: 0,
            failing: 0,
        }
    }

    // Adding a mark gives a new label.
    pub fn add(self, m: Mark) -> Self
        requires { line_of m < 32 }
        ensures { result ≡ add self m }
    {
        let h = self.holding;
        let f = self.failing;
        match m {
            Mark::Holds(i) => Label {
                holding: h | (1u32 << i),
                failing: f,
            },
            Mark::Fails(i) => Label {
                holding: h,
                failing: f | (1u32 << i),
            },
        }
    }

    // The marks of both.
    pub fn join(self, other: Label) -> Self
        ensures { result ≡ join self other }
    {
        let h = self.holding | other.holding;
        let f = self.failing | other.failing;
        Label {
            holding: h,
            failing: f,
        }
    }

    // Is the mark there?
    pub fn has(self, m: Mark) -> Tested
        requires { line_of m < 32 }
        ensures { (result.label ≡ self) × (result.found ≡ has self m) }
    {
        let found = match m {
            Mark::Holds(i) => (self.holding >> i) % 2 == 1,
            Mark::Fails(i) => (self.failing >> i) % 2 == 1,
        };
        Tested { label: self, found }
    }

    // Does it clash?
    pub fn clashes(self, masks: &Masks) -> Tested
        ensures { (result.label ≡ self) × ((s : Sheet) → MasksOf s masks.now → result.found ≡ clashes s self) }
    {
        Tested {
            label: self,
            found: self.marks_clash(masks),
        }
    }

    // By whole words; names are looked at only where marks of both kinds stand on lines that share theirs.
    fn marks_clash(self, masks: &Masks) -> bool
        ensures { (s : Sheet) → MasksOf s masks.now → result ≡ clashes s self }
    {
        let h = self.holding;
        let f = self.failing;
        if (h & f & masks.lines) | (h & masks.bottoms) | (f & masks.tops) != 0 {
            return true;
        }
        let sharing = h & masks.shared;
        if sharing == 0 {
            return false;
        }
        if f & masks.shared == 0 {
            return false;
        }
        group_fails(sharing, f, &masks.groups)
    }
}

// Does a line of `sharing` have one of its group among those that fail?
fn group_fails(sharing: u32, failing: u32, groups: &[u32; 32]) -> bool
    ensures { result ≡ any (λ i. meets failing (get_or groups.now i 0)) (members 32 sharing) }
{
    for i in Members::of(sharing) {
        if failing & groups[i] != 0 {
            return true;
        }
    }
    false
}
