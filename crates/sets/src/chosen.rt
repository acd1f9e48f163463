// A plan with some of its rules. The set is a number: rule i is worth 2^i.
ghost use Rattle.std.specs.Prelude.{◌≡◌, ◌≤◌, map};
ghost use Rattle.alc.specs.Causes.{keep_rules, with_rules};
ghost use Rattle.sheet.specs.Form.{triples, rule_of};
ghost use Rattle.plan.specs.Plan.{plan_sheet};

use plan::Plan;
use sheet::Section;

// The chosen rules move to the front, in the sheet's order.
fn chosen(rules: &Section, set: u32) -> Section
    requires { rules.now.count ≤ 32 }
    ensures { map rule_of (triples result) ≡ keep_rules set 0 (map rule_of (triples rules.now)) }
{
    let mut chosen = *rules;
    let mut kept = 0;
    for i in 0..rules.count as usize {
        if (set >> i) % 2 == 1 {
            chosen.entries[kept] = rules.entries[i];
            kept += 1;
        }
    }
    chosen.count = kept as u16;
    chosen
}

// The lines stay, and so does what is prepared of them.
pub fn with_rules(plan: &Plan, set: u32) -> Plan
    ensures { plan_sheet result ≡ with_rules (plan_sheet plan.now) set }
{
    let mut sheet = plan.sheet;
    sheet.rules = chosen(&plan.sheet.rules, set);
    Plan {
        sheet,
        working_set: plan.working_set,
        asking_set: plan.asking_set,
        operand_sets: plan.operand_sets,
        masks: plan.masks,
    }
}
