// The choice of the next step of one label: the first demand that is not met, lines ascending, then rules.
// That i is a line and that the label does not clash stay clauses: as types they would be made and taken apart at each of these calls.
ghost use Rattle.std.specs.Prelude.{◌≡◌, false, List, [], ◌∷◌, ◌<◌};
ghost use Rattle.alc.specs.Lists.{first};
ghost use Rattle.alc.specs.Sheet.{count, line};
ghost use Rattle.alc.specs.declared.Mark.{Mark};
ghost use Rattle.alc.specs.Label.{blank, add_all, line_of, every, either, clashes, when_holds, when_fails};
ghost use Rattle.plan.specs.Plan.{plan_sheet};
ghost use Rattle.steps.specs.Choice.{unmet, line_demands, rule_demands, choice_of, choice, demands_at};

use alc::{Label, Line, Mark};
use plan::Plan;

// Marks to add; or one of two marks, the first branch first.
#[derive(Clone, Copy)]
pub enum Choice {
    Every(Label),
    Either(Mark, Mark),
}

// All of the marks, unless they are there.
#[inline]
fn all(l: Label, marks: Label) -> Option<Choice>
    ensures { (ms : List Mark) → marks ≡ add_all blank ms → result ≡ choice_of (first (unmet l) (every ms ∷ [])) }
{
    if l.join(marks) == l {
        return None;
    }
    Some(Choice::Every(marks))
}

// One of two marks, unless one of them is there.
#[inline]
fn either(l: Label, m: Mark, n: Mark) -> Option<Choice>
    requires { (line_of m < 32) × (line_of n < 32) }
    ensures { result ≡ choice_of (first (unmet l) (either m n ∷ [])) }
{
    if l.has(m).found || l.has(n).found {
        return None;
    }
    Some(Choice::Either(m, n))
}

// What line i demands where it holds. This and when_fails are the two tables of alc's specs/Label.antt; as one match over mark and line they read no plainer.
#[inline]
fn when_holds(plan: &Plan, l: Label, i: usize) -> Option<Choice>
    requires { i < count (plan_sheet plan.now) }
    ensures { result ≡ choice_of (first (unmet l) (when_holds (line (plan_sheet plan.now) i) ∷ [])) }
{
    match plan.line(i) {
        Line::Not(_) => all(
            l,
            Label {
                holding: 0,
                failing: plan.operands(i),
            },
        ),
        Line::And(_, _) => all(
            l,
            Label {
                holding: plan.operands(i),
                failing: 0,
            },
        ),
        Line::Or(a, b) => either(l, Mark::Holds(a), Mark::Holds(b)),
        _ => None,
    }
}

// What line i demands where it fails.
#[inline]
fn when_fails(plan: &Plan, l: Label, i: usize) -> Option<Choice>
    requires { i < count (plan_sheet plan.now) }
    ensures { result ≡ choice_of (first (unmet l) (when_fails (line (plan_sheet plan.now) i) ∷ [])) }
{
    match plan.line(i) {
        Line::Not(_) => all(
            l,
            Label {
                holding: plan.operands(i),
                failing: 0,
            },
        ),
        Line::And(a, b) => either(l, Mark::Fails(a), Mark::Fails(b)),
        Line::Or(_, _) => all(
            l,
            Label {
                holding: 0,
                failing: plan.operands(i),
            },
        ),
        _ => None,
    }
}

// What the mark of line i demands. The label does not clash, so the line has one mark at most.
#[inline]
fn line_choice(plan: &Plan, l: Label, i: usize) -> Option<Choice>
    requires i_bound { i < count (plan_sheet plan.now) }
    requires l_value { clashes (plan_sheet plan.now) l ≡ false }
    ensures { result ≡ choice_of (first (unmet l) (demands_at (plan_sheet plan.now) l i)) }
{
    if l.has(Mark::Holds(i)).found {
        return when_holds(plan, l, i);
    }
    if l.has(Mark::Fails(i)).found {
        return when_fails(plan, l, i);
    }
    None
}

// The first line, of those marked, whose demand is not met.
fn first_line(plan: &Plan, l: Label) -> Option<Choice>
    requires { clashes (plan_sheet plan.now) l ≡ false }
    ensures { result ≡ choice_of (first (unmet l) (line_demands (plan_sheet plan.now) l)) }
{
    for i in plan.working(l) {
        if let Some(choice) = line_choice(plan, l, i) {
            return Some(choice);
        }
    }
    None
}

// The first rule c ⊑ d where neither c fails nor d holds.
fn first_rule(plan: &Plan, l: Label) -> Option<Choice>
    ensures { result ≡ choice_of (first (unmet l) (rule_demands (plan_sheet plan.now))) }
{
    for r in 0..plan.rule_count() {
        let rule = plan.rule(r);
        if let Some(choice) = either(l, Mark::Fails(rule.sub), Mark::Holds(rule.sup)) {
            return Some(choice);
        }
    }
    None
}

// Lines first, then rules.
pub fn next_choice(plan: &Plan, l: Label) -> Option<Choice>
    requires { clashes (plan_sheet plan.now) l ≡ false }
    ensures { result ≡ choice (plan_sheet plan.now) l }
{
    first_line(plan, l).or_else(|| first_rule(plan, l))
}
