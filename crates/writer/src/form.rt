// The numbers of a form in the sheet's order, section by section, and the bytes of numbers. What is right stands in sheet's specs/Form.antt (numbers_of)
// and in alc's specs/Writing.antt (bytes_for).
// How much room each function wants differs, so that it stays a clause.
ghost use Rattle.std.specs.Prelude.{◌≡◌, [], ◌++◌, ◌+◌, ◌*◌, ◌≤◌, length, take};
ghost use Rattle.alc.specs.Writing.{bytes_for};
ghost use Rattle.sheet.specs.Form.{entry_width, entry_numbers, section_numbers, numbers_of};

use crate::laid::Laid;
use sheet::{Entry, Kind, MOST, Section, Sheet, operands};

// Four sections of a count and at most 32 entries of three numbers, and the individuals.
pub const MOST_LAID: usize = 389;

// The groups of each.
pub fn lay_numbers(numbers: &[u16], laid: &mut Laid)
    requires { length laid.old + 3 * length numbers.now ≤ 1167 }
    ensures { (laid.new ≡ laid.old ++ bytes_for numbers.now) × (length laid.new ≤ length laid.old + 3 * length numbers.now) }
{
    laid.extend(numbers);
}

// How many of its three numbers an entry has, by its first: document 01's table.
fn entry_width(kind: Kind, first: u16) -> usize
    ensures { (result ≡ entry_width kind first) × (result ≤ 3) }
{
    match kind {
        Kind::Lines => (operands(first) as usize) + 1,
        Kind::Rules | Kind::Classes => 2,
        Kind::Roles => 3,
    }
}

// The numbers that an entry has, laid from a place on; and the place behind them.
fn lay_entry(kind: Kind, e: Entry, numbers: &mut [u16], at: usize) -> usize
    requires { at + 3 ≤ length numbers.old }
    ensures { (take result numbers.new ≡ take at numbers.old ++ entry_numbers kind e) × (result ≤ at + 3) }
{
    let entry = [e.first, e.second, e.third];
    let width = entry_width(kind, e.first);
    numbers[at..at + width].copy_from_slice(&entry[..width]);
    at + width
}

// A section: its count, then its entries, if a form can hold so many.
fn lay_section(kind: Kind, s: Section, numbers: &mut [u16], start: usize) -> usize
    requires { start + 97 ≤ length numbers.old }
    ensures { (take result numbers.new ≡ take start numbers.old ++ section_numbers kind s []) × (result ≤ start + 97) }
{
    numbers[start] = s.count;
    let mut at = start + 1;
    let count = s.count as usize;
    if MOST < count {
        return at;
    }
    for e in &s.entries[..count] {
        at = lay_entry(kind, *e, numbers, at);
    }
    at
}

// The numbers of a form up to a count that no form can hold, and how many they are.
pub fn lay_form(sheet: Sheet, numbers: &mut [u16]) -> usize
    requires { length numbers.old ≡ 389 }
    ensures { (result ≤ 389) × (take result numbers.new ≡ numbers_of sheet) }
{
    let a = lay_section(Kind::Lines, sheet.lines, numbers, 0);
    if MOST < sheet.lines.count as usize {
        return a;
    }
    let b = lay_section(Kind::Rules, sheet.rules, numbers, a);
    if MOST < sheet.rules.count as usize {
        return b;
    }
    numbers[b] = sheet.individuals;
    let c = lay_section(Kind::Classes, sheet.classes, numbers, b + 1);
    if MOST < sheet.classes.count as usize {
        return c;
    }
    lay_section(Kind::Roles, sheet.roles, numbers, c)
}
