// The clash test of a label over a plan: the label's own test, by the masks that stand in the plan. The label is handed back.
ghost use Rattle.std.specs.Prelude.{◌≡◌};
ghost use Rattle.alc.specs.Label.{clashes};
ghost use Rattle.plan.specs.Plan.{plan_sheet};

use alc::{Label, Tested};
use plan::Plan;

#[inline]
pub fn clash_test(plan: &Plan, l: Label) -> Tested
    ensures { (result.label ≡ l) × (result.found ≡ clashes (plan_sheet plan.now) l) }
{
    l.clashes(&plan.masks)
}
