// A plan: an accepted sheet, and beside it what every step looks up, prepared once.
// What is right stands in alc's specs; specs/Prepared.antt says what is prepared, specs/Plan.antt which sheet a plan stands for.
#![tactic(auto)]

ghost use Rattle.std.specs.Prelude.{ℕ, ◌≡◌, ◌<◌, ◌≤◌, true, false, get_or};
ghost use Rattle.alc.specs.Bits.{bit, put};
ghost use Rattle.alc.specs.Sheet.{line, count, well_formed, in_limits, operands_below};
ghost use Rattle.alc.specs.Label.{same_name};
ghost use Rattle.alc.specs.Masks.{MasksOf};
ghost use Rattle.sheet.specs.Form.{entry_of, line_of, sheet_of};
ghost use Rattle.std.proofs.Props.{props};
ghost use Rattle.plan.specs.Prepared.{operand_set, IsGroup, Prepared};

use alc::walk::Members;
use alc::{ClassAssertion, Label, Line, Masks, RoleAssertion, Rule};
use sheet::{Section, Sheet};

// The sheet; the set of not, and and or lines; the set of some and only lines; for each line its operands as a set; the masks.
// The words that are prepared stand beside the form, and not in its lines: those stay as they were read.
#[derive(Clone, Copy)]
pub struct Plan {
    pub sheet: Sheet,
    pub working_set: u32,
    pub asking_set: u32,
    pub operand_sets: [u32; 32],
    pub masks: Masks,
    pub ghost prepared: { Prepared sheet working_set asking_set operand_sets masks } by { Prim.hlevel props },
}

// Line i of a section of lines.
#[inline]
fn line_of(lines: &Section, i: usize) -> Line
    requires { i < 32 }
    ensures { result ≡ line_of (entry_of lines.now i) }
{
    Line::from(lines.entries[i])
}

// The lines that a not, and or or line names.
fn operand_set(line: Line) -> u32
    requires { operands_below 32 line ≡ true }
    ensures { result ≡ operand_set line }
{
    match line {
        Line::Not(i) => 1u32 << i,
        Line::And(i, j) | Line::Or(i, j) => (1u32 << i) | (1u32 << j),
        _ => 0,
    }
}

// Are these two lines of the same name?
fn same_name(line: Line, other: Line) -> bool
    ensures { result ≡ same_name line other }
{
    match (line, other) {
        (Line::Name(a), Line::Name(b)) => a == b,
        _ => false,
    }
}

// The set of the lines below `count` that pass.
fn lines_where<F: Fn(usize) -> bool>(count: usize, passes: F) -> u32
    requires { (count ≤ 32) × ((i : ℕ) → i < count → F.pre passes i) }
    ensures { (i : ℕ) → (i < count → F.post passes i (bit result i)) × (count ≤ i → bit result i ≡ false) }
{
    let mut set = 0u32;
    for i in 0..count {
        if passes(i) {
            set |= 1u32 << i;
        }
    }
    set
}

// For each line its operands.
fn operand_sets(lines: &Section) -> [u32; 32]
    requires { (lines.now.count ≤ 32) × ((i : ℕ) → i < lines.now.count → operands_below 32 (line_of (entry_of lines.now i)) ≡ true) }
    ensures { (i : ℕ) → i < lines.now.count → get_or result i 0 ≡ operand_set (line_of (entry_of lines.now i)) }
{
    let mut sets = [0u32; 32];
    for i in 0..lines.count as usize {
        sets[i] = operand_set(line_of(lines, i));
    }
    sets
}

// For each line its group: the lines of its name.
fn groups(lines: &Section) -> [u32; 32]
    requires { lines.now.count ≤ 32 }
    ensures { (i : ℕ) → i < lines.now.count → IsGroup lines.now i (get_or result i 0) }
{
    let count = lines.count as usize;
    let mut groups = [0u32; 32];
    for i in 0..count {
        let line = line_of(lines, i);
        groups[i] = lines_where(count, |j| same_name(line, line_of(lines, j)));
    }
    groups
}

// The masks of a sheet.
fn masks_of(sheet: &Sheet) -> Masks
    requires { sheet.now.lines.count ≤ 32 }
    ensures { MasksOf (sheet_of sheet.now) result }
{
    let lines = &sheet.lines;
    let count = lines.count as usize;
    let groups = groups(lines);
    Masks {
        lines: lines_where(count, |_| true),
        bottoms: lines_where(count, |i| matches!(line_of(lines, i), Line::Bottom)),
        tops: lines_where(count, |i| matches!(line_of(lines, i), Line::Top)),
        // those whose group has another line
        shared: lines_where(count, |i| (1u32 << i) | groups[i] != 1u32 << i),
        groups,
    }
}

// The plan of an accepted sheet.
pub fn prepare(sheet: Sheet) -> Plan
    requires { (well_formed (sheet_of sheet) ≡ true) × (in_limits (sheet_of sheet) ≡ true) }
    ensures { sheet_of result.sheet ≡ sheet_of sheet }
{
    let lines = &sheet.lines;
    let count = lines.count as usize;
    let working_set = lines_where(
        count,
        |i| matches!(
            line_of(lines, i),
            Line::Not(_) | Line::And(_, _) | Line::Or(_, _)
        ),
    );
    let asking_set = lines_where(
        count,
        |i| matches!(line_of(lines, i), Line::Some(_, _) | Line::Only(_, _)),
    );
    let operand_sets = operand_sets(lines);
    let masks = masks_of(&sheet);
    Plan {
        sheet,
        working_set,
        asking_set,
        operand_sets,
        masks,
    }
}

impl Plan {
    ghost use Rattle.std.specs.Prelude.{length};
    ghost use Rattle.alc.specs.Bits.{members};
    ghost use Rattle.alc.specs.Sheet.{rule, class_assertion, role_assertion};
    ghost use Rattle.alc.specs.Seeds.{is_quantified};
    ghost use Rattle.plan.specs.Prepared.{is_working, marked_lines};
    ghost use Rattle.plan.specs.Plan.{plan_sheet};

    #[inline]
    pub fn line_count(&self) -> usize
        ensures { (result ≡ count (plan_sheet self.now)) × (result ≤ 32) }
    {
        self.sheet.lines.count as usize
    }

    #[inline]
    pub fn line(&self, i: usize) -> Line
        requires { i < count (plan_sheet self.now) }
        ensures { result ≡ line (plan_sheet self.now) i }
    {
        line_of(&self.sheet.lines, i)
    }

    // The operands of line i, as a set.
    #[inline]
    pub fn operands(&self, i: usize) -> u32
        requires { i < count (plan_sheet self.now) }
        ensures { result ≡ operand_set (line (plan_sheet self.now) i) }
    {
        self.operand_sets[i]
    }

    #[inline]
    pub fn rule_count(&self) -> usize
        ensures { (result ≡ length (plan_sheet self.now).rules) × (result ≤ 12) }
    {
        self.sheet.rules.count as usize
    }

    #[inline]
    pub fn rule(&self, r: usize) -> Rule
        requires { r < length (plan_sheet self.now).rules }
        ensures { result ≡ rule (plan_sheet self.now) r }
    {
        Rule::from(self.sheet.rules.entries[r])
    }

    #[inline]
    pub fn individual_count(&self) -> usize
        ensures { (result ≡ (plan_sheet self.now).individuals) × (result ≤ 8) }
    {
        self.sheet.individuals as usize
    }

    #[inline]
    pub fn class_count(&self) -> usize
        ensures { (result ≡ length (plan_sheet self.now).classes) × (result ≤ 16) }
    {
        self.sheet.classes.count as usize
    }

    #[inline]
    pub fn class_assertion(&self, c: usize) -> ClassAssertion
        requires { c < length (plan_sheet self.now).classes }
        ensures { result ≡ class_assertion (plan_sheet self.now) c }
    {
        ClassAssertion::from(self.sheet.classes.entries[c])
    }

    #[inline]
    pub fn role_count(&self) -> usize
        ensures { (result ≡ length (plan_sheet self.now).roles) × (result ≤ 16) }
    {
        self.sheet.roles.count as usize
    }

    #[inline]
    pub fn role_assertion(&self, e: usize) -> RoleAssertion
        requires { e < length (plan_sheet self.now).roles }
        ensures { result ≡ role_assertion (plan_sheet self.now) e }
    {
        RoleAssertion::from(self.sheet.roles.entries[e])
    }

    // The lines whose marks in l demand something of it.
    #[inline]
    pub fn working(&self, l: Label) -> Members
        ensures { members 32 result.left ≡ marked_lines is_working (plan_sheet self.now) l }
    {
        Members::of((l.holding | l.failing) & self.working_set)
    }

    // The some and only lines that have a mark in l.
    #[inline]
    pub fn asking(&self, l: Label) -> Members
        ensures { members 32 result.left ≡ marked_lines is_quantified (plan_sheet self.now) l }
    {
        Members::of((l.holding | l.failing) & self.asking_set)
    }
}
