// The model's seeds in the order first asked for. The records are a set, so that they are swapped to the front, with their marks; no other memory is needed.
// What is right stands in alc's specs/Model.antt; specs/Sound.antt says which records and marks it starts from, and what a swap keeps.
// Records and marks stay two buffers, as C lends them; a struct over both `&mut`s would have to tell their ghost names in each contract, and so be no plainer.
#![tactic(auto)]

ghost use Rattle.std.specs.Prelude.{◌≡◌, [], ◌+◌, ◌<◌, ◌≤◌};
ghost use Rattle.alc.specs.Lists.{◌∈◌, each};
ghost use Rattle.alc.specs.Seeds.{seeds, include, include_all};
ghost use Rattle.alc.specs.Model.{model_seeds, label_at};
ghost use Rattle.alc.specs.Model as words;
ghost use Rattle.plan.specs.Plan.{plan_sheet};
ghost use Rattle.tableau.specs.Records.{recorded};
ghost use Rattle.tableau.specs.Joints.{joint_of};
ghost use Rattle.tableau.specs.Walks.{Lent};
ghost use Rattle.edges.specs.Keys.{SeedsIn};
ghost use Rattle.order.specs.Sound.{Sound, AllSeedsIn, Shuffled};

use alc::Label;
use plan::Plan;
use seeds::asks;
use tableau::labels::Labels;
use tableau::records::{find, label_of, word_of};
use tableau::walks::pick;

// The seed l is among the first `front` records, or becomes the next of them.
fn bring(l: Label, records: &mut [u64], marks: &mut [u8], used: usize, front: usize) -> usize
    requires lent { Lent used records.old marks.old }
    requires front_le_used { front ≤ used }
    requires l { l ∈ recorded used records.old }
    ensures { Shuffled used records.old marks.old records.new marks.new × (result ≤ used) × (recorded result records.new ≡ include (recorded front records.old) l) }
{
    let at = find(records, used, word_of(l)).unwrap();
    if at < front {
        return front;
    }
    records.swap(at, front);
    marks.swap(at, front);
    front + 1
}

// The seeds of a settled label, asking lines ascending.
fn bring_seeds(
    plan: &Plan,
    l: Label,
    records: &mut [u64],
    marks: &mut [u8],
    used: usize,
    start: usize,
) -> usize
    requires lent { Lent used records.old marks.old }
    requires start_le_used { start ≤ used }
    requires seeds_in { SeedsIn (plan_sheet plan.now) l (recorded used records.old) }
    ensures { Shuffled used records.old marks.old records.new marks.new × (result ≤ used) × (recorded result records.new ≡ include_all (recorded start records.old) (seeds (plan_sheet plan.now) l)) }
{
    let mut front = start;
    for ask in asks(plan, l) {
        front = bring(ask.seed, records, marks, used, front);
    }
    front
}

// The seeds of a joint label, elements ascending.
fn bring_joint(plan: &Plan, j: Labels, records: &mut [u64], marks: &mut [u8], used: usize) -> usize
    requires lent { Lent used records.old marks.old }
    requires seeds_in { AllSeedsIn (plan_sheet plan.now) (joint_of j) (recorded used records.old) }
    ensures { Shuffled used records.old marks.old records.new marks.new × (result ≤ used) × (recorded result records.new ≡ include_all [] (each (seeds (plan_sheet plan.now)) (joint_of j))) }
{
    let mut front = 0;
    for l in j.as_slice() {
        front = bring_seeds(plan, *l, records, marks, used, front);
    }
    front
}

// The first settled expansion of a seed whose seeds are all satisfiable.
pub fn chosen(plan: &Plan, seed: Label, records: &[u64], marks: &[u8], used: usize) -> Label
    requires sound { Sound (plan_sheet plan.now) used records.now marks.now }
    requires seed { seed ∈ recorded used records.now }
    ensures { result ≡ words.chosen (plan_sheet plan.now) seed }
{
    pick(plan, seed, records, marks, used).unwrap_or(Label::blank())
}

// The model's seeds to the front; says how many there are. No range: each turn may move the end.
pub fn order(plan: &Plan, j: Labels, records: &mut [u64], marks: &mut [u8], used: usize) -> usize
    requires sound { Sound (plan_sheet plan.now) used records.old marks.old }
    requires seeds_in { AllSeedsIn (plan_sheet plan.now) (joint_of j) (recorded used records.old) }
    ensures { Shuffled used records.old marks.old records.new marks.new × (result ≤ used) × (recorded result records.new ≡ model_seeds (plan_sheet plan.now) (joint_of j)) }
{
    let mut front = bring_joint(plan, j, records, marks, used);
    let mut i = 0;
    while i < front {
        let k = chosen(plan, label_of(records[i]), records, marks, used);
        front = bring_seeds(plan, k, records, marks, used, front);
        i += 1;
    }
    front
}

// The label of element x: of an individual, or the chosen expansion of a seed.
pub fn label_at(
    plan: &Plan,
    j: Labels,
    records: &[u64],
    marks: &[u8],
    used: usize,
    x: usize,
) -> Label
    requires sound { Sound (plan_sheet plan.now) used records.now marks.now }
    requires x_bound { x < j.count + used }
    ensures { result ≡ label_at (joint_of j) (recorded used records.now) (words.chosen (plan_sheet plan.now)) x }
{
    if x < j.count {
        return j.label(x);
    }
    chosen(plan, label_of(records[x - j.count]), records, marks, used)
}
