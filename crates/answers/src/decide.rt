// The verdict on a sheet that was read, and its model.
// Records and marks stay two parameters, and that there is a mark for each record stays a clause of each function: C lends two buffers.
ghost use Rattle.std.specs.Prelude.{◌≡◌, ◌≤◌, length};
ghost use Rattle.alc.specs.Model.{model_words, satisfy_answer};
ghost use Rattle.plan.specs.Plan.{plan_sheet};
ghost use Rattle.tableau.specs.Records.{recorded};
ghost use Rattle.tableau.specs.Joints.{joint_of, Fit};
ghost use Rattle.order.specs.Sound.{Sound, AllSeedsIn};
ghost use Rattle.answers.specs.Answers.{Put, Decided};

use crate::Answer;
use engine::judge::{Judged, judge, start_joint};
use model::elements::Elements;
use order::order;
use plan::Plan;
use tableau::labels::Labels;
use tableau::records::Full;

// Satisfiable: the model, or how long it is.
fn put_model(
    plan: &Plan,
    joint: Labels,
    records: &mut [u64],
    marks: &mut [u8],
    used: usize,
    out: &mut [u32],
) -> Answer
    requires fit { Fit (plan_sheet plan.now) joint }
    requires sound { Sound (plan_sheet plan.now) used records.old marks.old }
    requires all_seeds_in { AllSeedsIn (plan_sheet plan.now) (joint_of joint) (recorded used records.old) }
    requires used_bound { used ≤ 4096 }
    ensures { Put (model_words (plan_sheet plan.now) (joint_of joint)) out.old result out.new }
{
    let seeds = order(plan, joint, records, marks, used);
    let elements = Elements {
        plan,
        joint,
        records,
        marks,
        used,
        seeds,
    };
    let edges = elements.count_edges();
    let words = 2 + elements.count() + 3 * edges;
    if out.len() < words {
        return Answer::LongModel(words);
    }
    elements.write(out, edges);
    Answer::Model(words)
}

// The verdict: out of space, unsatisfiable, or satisfiable with its model.
pub fn decide(plan: &Plan, records: &mut [u64], marks: &mut [u8], out: &mut [u32]) -> Answer
    requires records_len_bound { (length records.old ≤ 4096) × (length records.old ≤ length marks.old) }
    ensures { Decided (satisfy_answer (plan_sheet plan.now) (length records.old)) out.old result out.new }
{
    match judge(plan, start_joint(plan), records, marks, 0) {
        Err(Full) => Answer::OutOfSpace,
        Ok(Judged::Going(_)) => Answer::Unsatisfiable,
        Ok(Judged::Fine(used, joint)) => put_model(plan, joint, records, marks, used, out),
    }
}
