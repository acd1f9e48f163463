// What a settled label hands along a role, and the seeds that it asks for, over a plan of the sheet.
// What is right stands in alc's specs/Label.antt (handed, pushed) and specs/Seeds.antt; specs/Asks.antt says what the answers mean.
#![tactic(auto)]

pub mod asking; // the seeds asked for, one after the other

ghost use Rattle.std.specs.Prelude.{◌≡◌, ◌<◌};
ghost use Rattle.alc.specs.Sheet.{count};
ghost use Rattle.alc.specs.Label.{blank, add_all, line_of, pushed};
ghost use Rattle.alc.specs.Seeds.{asks};
ghost use Rattle.plan.specs.Plan.{plan_sheet};
ghost use Rattle.seeds.specs.Asks.{listed, handed_at, asks_at, ask_for};
ghost use Rattle.seeds.specs.Left.{asks_left};

use crate::asking::Asks;
use alc::{Ask, Label, Line, Mark};
use plan::Plan;

// What line i, a some or only line, hands along the role. This and asked_at are two tables, handed and asks_of of alc's specs; as one they read no plainer.
#[inline]
fn handed_at(plan: &Plan, role: u32, l: Label, i: usize) -> Option<Mark>
    requires { i < count (plan_sheet plan.now) }
    ensures { listed result ≡ handed_at (plan_sheet plan.now) role l i }
{
    match plan.line(i) {
        Line::Some(r, line) if r == role && l.has(Mark::Fails(i)).found => Some(Mark::Fails(line)),
        Line::Only(r, line) if r == role && l.has(Mark::Holds(i)).found => Some(Mark::Holds(line)),
        _ => None,
    }
}

// All that goes along the role.
pub fn pushed_along(plan: &Plan, role: u32, l: Label) -> Label
    ensures { result ≡ add_all blank (pushed (plan_sheet plan.now) role l) }
{
    let mut marks = Label::blank();
    for i in plan.asking(l) {
        if let Some(m) = handed_at(plan, role, l, i) {
            marks = marks.add(m);
        }
    }
    marks
}

// The seed asked for by a mark along a role: the mark, with all that goes along the role.
#[inline]
fn ask_for(plan: &Plan, l: Label, role: u32, m: Mark) -> Ask
    requires { line_of m < 32 }
    ensures { result ≡ ask_for (plan_sheet plan.now) l role m }
{
    Ask {
        role,
        seed: Label::blank().add(m).join(pushed_along(plan, role, l)),
    }
}

// What line i asks for, if it does.
#[inline]
pub(crate) fn asked_at(plan: &Plan, l: Label, i: usize) -> Option<Ask>
    requires { i < count (plan_sheet plan.now) }
    ensures { listed result ≡ asks_at (plan_sheet plan.now) l i }
{
    match plan.line(i) {
        Line::Some(role, line) if l.has(Mark::Holds(i)).found => Some(ask_for(
            plan,
            l,
            role,
            Mark::Holds(line),
        )),
        Line::Only(role, line) if l.has(Mark::Fails(i)).found => Some(ask_for(
            plan,
            l,
            role,
            Mark::Fails(line),
        )),
        _ => None,
    }
}

// All that the label asks for, asking lines ascending.
#[inline]
pub fn asks(plan: &Plan, l: Label) -> Asks<'_>
    ensures { asks_left result ≡ asks (plan_sheet plan.now) l }
{
    Asks {
        plan,
        label: l,
        left: plan.asking(l),
    }
}
