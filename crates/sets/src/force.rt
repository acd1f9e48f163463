// A query, and the verdict on one set of rules: it is judged with "class fails" added at the port, and forces where
// no settled joint label is fine; without it, and is contradictory where none is.
// Records and marks stay two parameters, and that there is a mark for each record stays a clause of each function: C lends two buffers.
ghost use Rattle.std.specs.Prelude.{◌≡◌, List, ◌≤◌, length, MatchOption};
ghost use Rattle.alc.specs.Judge.{Entry, start};
ghost use Rattle.alc.specs.Causes.{denial, with_rules};
ghost use Rattle.plan.specs.Plan.{plan_sheet};
ghost use Rattle.tableau.specs.Joints.{joint_of, Fit};
ghost use Rattle.sets.specs.Sets.{OnSheet, judged_by, forced_by, contradicted_by};

use crate::chosen::with_rules;
use alc::Mark;
use engine::judge::{Judged, judge, start_joint};
use plan::Plan;
use tableau::labels::Labels;
use tableau::records::Full;

// A port and a class that are on the plan's sheet.
#[derive(Clone, Copy)]
pub struct Query<'a> {
    pub plan: &'a Plan,
    pub port: usize,
    pub class: usize,
    pub ghost on_sheet: { OnSheet (plan_sheet plan.now) port class },
}

// Is no settled joint label fine, from where a joint label begins?
fn none_fine(
    plan: &Plan,
    begin: Labels,
    records: &mut [u64],
    marks: &mut [u8],
) -> Result<bool, Full>
    requires fit { Fit (plan_sheet plan.now) begin }
    requires records_in_bounds { length records.old ≤ length marks.old }
    ensures { (xs : List Entry) → joint_of begin ≡ start (plan_sheet plan.now) xs → result ≡ judged_by (plan_sheet plan.now) xs (length records.old) }
{
    match judge(plan, begin, records, marks, 0)? {
        Judged::Going(_) => Ok(true),
        Judged::Fine(_, _) => Ok(false),
    }
}

// Does no finite interpretation meet the set and the assertions? Judged "without class fails".
pub fn contradicts(
    plan: &Plan,
    set: u32,
    records: &mut [u64],
    marks: &mut [u8],
) -> Result<bool, Full>
    requires records_in_bounds { length records.old ≤ length marks.old }
    ensures { result ≡ contradicted_by (with_rules (plan_sheet plan.now) set) (length records.old) }
{
    let part = with_rules(plan, set);
    none_fine(&part, start_joint(&part), records, marks)
}

impl<'a> Query<'a> {
    // The query of a port and a class, if both are on the sheet.
    pub fn on(plan: &'a Plan, port: u64, class: u64) -> Option<Query<'a>>
        ensures { MatchOption result (¬ OnSheet (plan_sheet plan.now) port class) (λ q. (q.plan.now ≡ plan.now) × (q.port ≡ port) × (q.class ≡ class)) }
    {
        if plan.individual_count() as u64 <= port || plan.line_count() as u64 <= class {
            return None;
        }
        Some(Query {
            plan,
            port: port as usize,
            class: class as usize,
        })
    }

    // The class assertions, and behind them that the class fails at the port.
    fn denied(&self) -> Labels
        ensures { (joint_of result ≡ start (plan_sheet self.now.plan.now) (denial self.now.port self.now.class)) × Fit (plan_sheet self.now.plan.now) result }
    {
        let begin = start_joint(self.plan);
        let l = begin.label(self.port);
        begin.with(self.port, l.add(Mark::Fails(self.class)))
    }

    // Does the set force the port into the class?
    pub fn forces(&self, set: u32, records: &mut [u64], marks: &mut [u8]) -> Result<bool, Full>
        requires records_in_bounds { length records.old ≤ length marks.old }
        ensures { result ≡ forced_by (with_rules (plan_sheet self.now.plan.now) set) self.now.port self.now.class (length records.old) }
    {
        let part = with_rules(self.plan, set);
        let query = Query {
            plan: &part,
            port: self.port,
            class: self.class,
        };
        none_fine(&part, query.denied(), records, marks)
    }
}
