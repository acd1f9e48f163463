// Sections: an entry of any section is up to three numbers, and one loop reads the entries of any of the four.
// What is right stands in alc's specs/Bytes.antt; specs/Parts.antt says what it is of entries by their numbers.
// Bytes and place stay two parameters, and the place behind is answered, as those definitions have it: a cursor would be no plainer, since each contract would tell its place before and after.
ghost use Rattle.std.specs.Prelude.{◌≡◌, [], ℕ, ◌<◌, ◌≤◌};
ghost use Rattle.alc.specs.Bytes.{Read, operands_at, line_at, role_at, several_at, counted_at};
ghost use Rattle.sheet.specs.declared.Entry.{Entry as Triple};
ghost use Rattle.sheet.specs.Form.{reading_of, section_form, line_triple, role_triple};
ghost use Rattle.reader.specs.Parts.{reading, first_operand, pair_at, section_at, filled, EntriesBy};

use numbers::read_below;
use sheet::{Entry, Kind, MOST, Reason, Refusal, Section, operands};

// What the first operand is below, and why it is refused otherwise: names are below 32 and roles below 8, or too large; lines are below their own, or not there.
fn first_operand(kind: u16, own: u16) -> (u16, Reason)
    ensures { result ≡ first_operand kind own }
{
    match kind {
        2 => (32, Reason::TooLarge),
        6.. => (8, Reason::TooLarge),
        _ => (own, Reason::NotThere),
    }
}

// The operands of line `own`, whose kind is read.
#[tactic(auto, using(crate::proofs::Entries::operands_by_count))]
fn read_operands(s: &[u8], at: usize, own: u16, kind: u16) -> Result<(Entry, usize), Refusal>
    requires { kind < 8 }
    ensures { reading_of result ≡ reading line_triple (operands_at s.now own kind at) }
{
    let mut entry = Entry {
        first: kind,
        second: 0,
        third: 0,
    };
    let wanted = operands(kind);
    if wanted == 0 {
        return Ok((entry, at));
    }
    let (limit, why) = first_operand(kind, own);
    let (a, p) = read_below(s, at, limit, why)?;
    entry.second = a;
    if wanted == 1 {
        return Ok((entry, p));
    }
    let (b, q) = read_below(s, p, own, Reason::NotThere)?;
    entry.third = b;
    Ok((entry, q))
}

// Line `own`: its kind, then its operands.
#[tactic(auto, using(crate::proofs::Entries::below_limit), unfolding(alc::specs::Bytes::line_at))]
fn read_line(s: &[u8], at: usize, own: u16) -> Result<(Entry, usize), Refusal>
    ensures { reading_of result ≡ reading line_triple (line_at s.now own at) }
{
    let (kind, p) = read_below(s, at, 8, Reason::TooLarge)?;
    read_operands(s, p, own, kind)
}

// Two numbers that name what is there: each below its limit.
#[tactic(auto, unfolding(crate::specs::Parts::pair_at))]
fn read_pair(s: &[u8], at: usize, limit: u16, other: u16) -> Result<(Entry, usize), Refusal>
    ensures { reading_of result ≡ pair_at s.now limit other at }
{
    let (first, p) = read_below(s, at, limit, Reason::NotThere)?;
    let (second, q) = read_below(s, p, other, Reason::NotThere)?;
    let entry = Entry {
        first,
        second,
        third: 0,
    };
    Ok((entry, q))
}

// A role, and the individuals that it leads from and to.
#[tactic(auto, unfolding(alc::specs::Bytes::role_at))]
fn read_role(s: &[u8], at: usize, individuals: u16) -> Result<(Entry, usize), Refusal>
    ensures { (i : ℕ) → reading_of result ≡ reading role_triple (role_at s.now individuals i at) }
{
    let (first, p) = read_below(s, at, 8, Reason::TooLarge)?;
    let (second, q) = read_below(s, p, individuals, Reason::NotThere)?;
    let (third, t) = read_below(s, q, individuals, Reason::NotThere)?;
    let entry = Entry {
        first,
        second,
        third,
    };
    Ok((entry, t))
}

// So many entries, each read by `entry` from its place and with its own number, into an empty section; and the place behind them.
// A section is filled where it lies: handed back with the place, its copies took a third of the reader's time.
fn read_entries<F: Fn(usize, u16) -> Result<(Entry, usize), Refusal>>(
    start: usize,
    count: u16,
    section: &mut Section,
    entry: F,
) -> Result<usize, Refusal>
    requires few { count ≤ 32 }
    requires empty { section.old ≡ section_form [] }
    requires callable { F.IsAlwaysCallable entry }
    ensures { (one : ℕ → ℕ → Read Triple) → EntriesBy (F.post entry) one → filled result section.new ≡ reading section_form (several_at one 0 count start) }
{
    section.count = count;
    let mut at = start;
    // An entry's number is what its reading goes by, and its place in the section.
    for own in 0..count {
        let (read, next) = entry(at, own)?;
        section.entries[usize::from(own)] = read;
        at = next;
    }
    Ok(at)
}

// A count, of at most so many, then as many entries.
#[tactic(auto, using(crate::proofs::Entries::below_limit))]
fn read_counted<F: Fn(usize, u16) -> Result<(Entry, usize), Refusal>>(
    s: &[u8],
    at: usize,
    most: u16,
    section: &mut Section,
    entry: F,
) -> Result<usize, Refusal>
    requires few { most ≤ 32 }
    requires empty { section.old ≡ section_form [] }
    requires callable { F.IsAlwaysCallable entry }
    ensures { (one : ℕ → ℕ → Read Triple) → EntriesBy (F.post entry) one → filled result section.new ≡ reading section_form (counted_at s.now most one at) }
{
    let (count, next) = read_below(s, at, most + 1, Reason::OverLimit)?;
    read_entries(next, count, section, entry)
}

// A section of a kind, on a sheet of so many lines and individuals: its count, then its entries; and the place behind them.
pub(crate) fn fill_section(
    s: &[u8],
    at: usize,
    kind: Kind,
    lines: u16,
    individuals: u16,
    section: &mut Section,
) -> Result<usize, Refusal>
    requires { section.old ≡ section_form [] }
    ensures { filled result section.new ≡ reading section_form (section_at kind s.now lines individuals at) }
{
    match kind {
        Kind::Lines => read_counted(s, at, 32, section, |at, own| read_line(s, at, own)),
        Kind::Rules => read_counted(s, at, 12, section, |at, _| read_pair(s, at, lines, lines)),
        Kind::Classes => {
            read_counted(
                s,
                at,
                16,
                section,
                |at, _| read_pair(s, at, individuals, lines),
            )
        }
        Kind::Roles => read_counted(s, at, 16, section, |at, _| read_role(s, at, individuals)),
    }
}

// A section without entries.
#[tactic(auto, unfolding(sheet::specs::Form::section_form, sheet::specs::Form::padded))]
pub(crate) fn empty_section() -> Section
    ensures { result ≡ section_form [] }
{
    let none = Entry {
        first: 0,
        second: 0,
        third: 0,
    };
    Section {
        entries: [none; MOST],
        count: 0,
    }
}

// The same, with the section handed back.
pub fn read_section(
    s: &[u8],
    at: usize,
    kind: Kind,
    lines: u16,
    individuals: u16,
) -> Result<(Section, usize), Refusal>
    ensures { reading_of result ≡ reading section_form (section_at kind s.now lines individuals at) }
{
    let mut section = empty_section();
    let behind = fill_section(s, at, kind, lines, individuals, &mut section)?;
    Ok((section, behind))
}
