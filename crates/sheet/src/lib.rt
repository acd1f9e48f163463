// Sheets: the form in which the code holds one, and why one is refused.
// What is right stands in alc's specs/Sheet.antt and specs/Bytes.antt; specs/Form.antt says what the form means.
#![tactic(auto)]

ghost use Rattle.std.specs.Prelude.{◌≡◌};
ghost use Rattle.sheet.specs.Form.{reason_number, operand_count, line_of, rule_of, class_of, role_of};

use alc::{ClassAssertion, Line, RoleAssertion, Rule};

// Why the desk refuses, by document 01's numbers 1 to 8.
#[derive(Clone, Copy)]
pub enum Reason {
    Cut,
    BadlyFormed,
    OverLimit,
    TooLarge,
    NotThere,
    LeftOver,
    LentBadly,
    OffSheet,
}

// A refusal tells its reason and its place.
#[derive(Clone, Copy)]
pub struct Refusal {
    pub why: Reason,
    pub at: usize,
}

// Which section.
#[derive(Clone, Copy)]
pub enum Kind {
    Lines,
    Rules,
    Classes,
    Roles,
}

// How many operands a line of each kind has.
const OPERANDS: [u8; 8] = [0, 0, 1, 1, 2, 2, 2, 2];

// The largest count of any section.
pub const MOST: usize = 32;

// The numbers of an entry. Lines: kind, first operand, second operand; rules: c, d, 0; class assertions: individual, line, 0;
// role assertions: role, from, to. What is not used is 0.
#[derive(Clone, Copy)]
pub struct Entry {
    pub first: u16,
    pub second: u16,
    pub third: u16,
}

// The entries of one section. The count stands beside them, and is no length: a form may count more entries than it holds, and is refused for it.
#[derive(Clone, Copy)]
pub struct Section {
    pub entries: [Entry; MOST],
    pub count: u16,
}

// A sheet by value. Its counts and entries have 16 bits, so that a form can break any limit.
#[derive(Clone, Copy)]
pub struct Sheet {
    pub lines: Section,
    pub rules: Section,
    pub individuals: u16,
    pub classes: Section,
    pub roles: Section,
}

// Document 01's number of a reason. It is no `From`: the promises and the pages name this function.
pub fn reason_number(r: Reason) -> u64
    ensures { result ≡ reason_number r }
{
    match r {
        Reason::Cut => 1,
        Reason::BadlyFormed => 2,
        Reason::OverLimit => 3,
        Reason::TooLarge => 4,
        Reason::NotThere => 5,
        Reason::LeftOver => 6,
        Reason::LentBadly => 7,
        Reason::OffSheet => 8,
    }
}

// How many operands a line of this kind has; a kind above 7 is none, and has none.
pub fn operands(kind: u16) -> u8
    ensures { result ≡ operand_count kind }
{
    if 7 < kind {
        return 0;
    }
    OPERANDS[kind as usize]
}

impl From<Entry> for Line {
    ghost from_gives = { λ e l. l ≡ line_of e };

    // A kind of 7 or more is `only`, as in the definition.
    fn from(e: Entry) -> Line {
        match e.first {
            0 => Line::Top,
            1 => Line::Bottom,
            2 => Line::Name(u32::from(e.second)),
            3 => Line::Not(usize::from(e.second)),
            4 => Line::And(usize::from(e.second), usize::from(e.third)),
            5 => Line::Or(usize::from(e.second), usize::from(e.third)),
            6 => Line::Some(u32::from(e.second), usize::from(e.third)),
            _ => Line::Only(u32::from(e.second), usize::from(e.third)),
        }
    }
}

impl From<Entry> for Rule {
    ghost from_gives = { λ e r. r ≡ rule_of e };

    fn from(e: Entry) -> Rule {
        Rule {
            sub: usize::from(e.first),
            sup: usize::from(e.second),
        }
    }
}

impl From<Entry> for ClassAssertion {
    ghost from_gives = { λ e c. c ≡ class_of e };

    fn from(e: Entry) -> ClassAssertion {
        ClassAssertion {
            individual: usize::from(e.first),
            class: usize::from(e.second),
        }
    }
}

impl From<Entry> for RoleAssertion {
    ghost from_gives = { λ e r. r ≡ role_of e };

    fn from(e: Entry) -> RoleAssertion {
        RoleAssertion {
            role: u32::from(e.first),
            source: usize::from(e.second),
            target: usize::from(e.third),
        }
    }
}
