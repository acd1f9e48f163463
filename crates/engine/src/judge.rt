// Judging joint labels: the settled joint labels in order, up to and including the first whose seeds are all satisfiable.
// Each adds its seeds to the records, closes them, and strikes out among the new ones.
ghost use Rattle.std.specs.Prelude.{◌≡◌, false, [], ◌∷◌, ◌≤◌, max, length, replicate};
ghost use Rattle.alc.specs.Lists.{all, each};
ghost use Rattle.alc.specs.Label.{blank};
ghost use Rattle.alc.specs.Settle.{closes, settle};
ghost use Rattle.alc.specs.Seeds.{seeds, include_all, served};
ghost use Rattle.alc.specs.Judge.{start};
ghost use Rattle.plan.specs.Plan.{plan_sheet};
ghost use Rattle.tableau.specs.Records.{recorded, GrownTo};
ghost use Rattle.tableau.specs.Walks.{Lent, standing};
ghost use Rattle.tableau.specs.Joints.{joint_of, Fit};
ghost use Rattle.engine.specs.Ledger.{Known};
ghost use Rattle.engine.specs.Verdicts.{Weighed, JudgedAll};

use crate::close::close;
use crate::strike::strike;
use alc::{Label, Mark};
use plan::Plan;
use tableau::joint::{JointStep, next_step};
use tableau::labels::Labels;
use tableau::records::Full;
use tableau::walks::{include_seeds, seeds_stand};
use zeros::clear;

// So many records are used, and no joint label is fine yet; or this one is.
// Two cases that `judge` tells apart, each with a name: no count beside an Option.
#[derive(Clone, Copy)]
pub enum Judged {
    Going(usize),
    Fine(usize, Labels),
}

// ---- where the work begins

// With no individuals, one unnamed element stands in.
fn blank_joint(individuals: usize) -> Labels
    requires { individuals ≤ 8 }
    ensures { (joint_of result ≡ replicate (max 1 individuals) blank) × (result.count ≡ max 1 individuals) }
{
    Labels {
        labels: [Label::blank(); 8],
        count: individuals.max(1),
    }
}

// The class assertions.
pub fn start_joint(plan: &Plan) -> Labels
    ensures { (joint_of result ≡ start (plan_sheet plan.now) []) × Fit (plan_sheet plan.now) result }
{
    let mut joint = blank_joint(plan.individual_count());
    for i in 0..plan.class_count() {
        let c = plan.class_assertion(i);
        let l = joint.label(c.individual);
        joint = joint.with(c.individual, l.add(Mark::Holds(c.class)));
    }
    joint
}

// ---- one joint label

// The seeds of a joint label, elements ascending.
fn include_joint(plan: &Plan, j: Labels, records: &mut [u64], start: usize) -> Result<usize, Full>
    requires { start ≤ length records.old }
    ensures { GrownTo (include_all (recorded start records.old) (each (seeds (plan_sheet plan.now)) (joint_of j))) records.old result records.new }
{
    let mut used = start;
    for l in j.as_slice() {
        used = include_seeds(plan, *l, records, used)?;
    }
    Ok(used)
}

// All seeds of a joint label are records that are not struck out.
fn joint_stands(plan: &Plan, j: Labels, records: &[u64], marks: &[u8], used: usize) -> bool
    requires { Lent used records.now marks.now }
    ensures { result ≡ all (served (plan_sheet plan.now) (standing used records.now marks.now)) (joint_of j) }
{
    j.as_slice()
        .iter()
        .all(|l| seeds_stand(plan, *l, records, marks, used))
}

// The records from `start` to `used` are new and closed: which of them are satisfiable, and is the joint label fine?
fn weigh(
    plan: &Plan,
    j: Labels,
    records: &[u64],
    marks: &mut [u8],
    start: usize,
    used: usize,
) -> Judged
    requires start_le_used { start ≤ used }
    requires lent { Lent used records.now marks.old }
    ensures { Weighed (plan_sheet plan.now) j start used records.now marks.old result marks.new }
{
    clear(&mut marks[start..used]);
    strike(plan, start, records, marks, used);
    if joint_stands(plan, j, records, marks, used) {
        Judged::Fine(used, j)
    } else {
        Judged::Going(used)
    }
}

// A settled joint label: what it reaches is recorded and weighed.
fn judge_settled(
    plan: &Plan,
    j: Labels,
    records: &mut [u64],
    marks: &mut [u8],
    used: usize,
) -> Result<Judged, Full>
    requires fit { Fit (plan_sheet plan.now) j }
    requires clear { closes (plan_sheet plan.now) (joint_of j) ≡ false }
    requires lent { Lent used records.old marks.old × (length records.old ≤ length marks.old) }
    requires known { Known (plan_sheet plan.now) (recorded used records.old) }
    ensures { JudgedAll (plan_sheet plan.now) (joint_of j ∷ []) used records.old marks.old result records.new marks.new }
{
    let asked = include_joint(plan, j, records, used)?;
    let reached = close(plan, records, used, asked)?;
    Ok(weigh(plan, j, records, marks, used, reached))
}

// ---- all of them

// The settled joint labels that j leads to, first branch first; the marks still unset fall at every call.
pub fn judge(
    plan: &Plan,
    j: Labels,
    records: &mut [u64],
    marks: &mut [u8],
    used: usize,
) -> Result<Judged, Full>
    requires fit { Fit (plan_sheet plan.now) j }
    requires lent { Lent used records.old marks.old × (length records.old ≤ length marks.old) }
    requires known { Known (plan_sheet plan.now) (recorded used records.old) }
    ensures { JudgedAll (plan_sheet plan.now) (settle (plan_sheet plan.now) (plan_sheet plan.now).roles (joint_of j)) used records.old marks.old result records.new marks.new }
{
    match next_step(plan, j) {
        JointStep::Clashed => Ok(Judged::Going(used)),
        JointStep::Settled => judge_settled(plan, j, records, marks, used),
        JointStep::Onward(a, more) => {
            let l = j.label(a).join(more);
            judge(plan, j.with(a, l), records, marks, used)
        }
        JointStep::Split(a, m, n) => {
            let l = j.label(a);
            let first = judge(plan, j.with(a, l.add(m)), records, marks, used)?;
            match first {
                Judged::Going(now_used) => judge(
                    plan,
                    j.with(a, l.add(n)),
                    records,
                    marks,
                    now_used,
                ),
                Judged::Fine(_, _) => Ok(first),
            }
        }
    }
}
