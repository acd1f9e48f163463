// The walks over the settled expansions of a seed. Each calls itself on each branch's label, first branch first; the marks still unset fall at every call.
// Records, marks and their count stay plain parameters: the callers lend them `&mut` at times, so that a struct of them would be built anew, and its fact proved, at each call.
ghost use Rattle.std.specs.Prelude.{◌≡◌, ◌%◌, ◌^◌, ◌≤◌, length};
ghost use Rattle.alc.specs.Lists.{first};
ghost use Rattle.alc.specs.Seeds.{seeds, expansions, successors, include_all, among, served};
ghost use Rattle.plan.specs.Plan.{plan_sheet};
ghost use Rattle.tableau.specs.Records.{recorded, GrownTo};
ghost use Rattle.tableau.specs.Walks.{Lent, standing};

use crate::clash::clash_test;
use crate::records::{Full, find, include_label, word_of};
use alc::Label;
use plan::Plan;
use seeds::asks;
use steps::step::{Choice, next_choice};

// The seeds of a settled label, asking lines ascending, each added if it is new.
pub fn include_seeds(
    plan: &Plan,
    l: Label,
    records: &mut [u64],
    start: usize,
) -> Result<usize, Full>
    requires { start ≤ length records.old }
    ensures { GrownTo (include_all (recorded start records.old) (seeds (plan_sheet plan.now) l)) records.old result records.new }
{
    let mut used = start;
    for ask in asks(plan, l) {
        used = include_label(ask.seed, records, used)?;
    }
    Ok(used)
}

// The seeds of every settled expansion.
pub fn collect(plan: &Plan, l: Label, records: &mut [u64], used: usize) -> Result<usize, Full>
    requires { used ≤ length records.old }
    ensures { GrownTo (include_all (recorded used records.old) (successors (plan_sheet plan.now) l)) records.old result records.new }
{
    if clash_test(plan, l).found {
        return Ok(used);
    }
    match next_choice(plan, l) {
        None => include_seeds(plan, l, records, used),
        Some(Choice::Every(marks)) => collect(plan, l.join(marks), records, used),
        Some(Choice::Either(m, n)) => {
            let now_used = collect(plan, l.add(m), records, used)?;
            collect(plan, l.add(n), records, now_used)
        }
    }
}

// The seed is a record that is not struck out.
fn stands(seed: Label, records: &[u64], marks: &[u8], used: usize) -> bool
    requires { Lent used records.now marks.now }
    ensures { result ≡ among seed (standing used records.now marks.now) }
{
    match find(records, used, word_of(seed)) {
        Some(at) => marks[at] == 0,
        None => false,
    }
}

// All seeds of a settled label are records that are not struck out.
pub fn seeds_stand(plan: &Plan, l: Label, records: &[u64], marks: &[u8], used: usize) -> bool
    requires { Lent used records.now marks.now }
    ensures { result ≡ served (plan_sheet plan.now) (standing used records.now marks.now) l }
{
    asks(plan, l).all(|ask| stands(ask.seed, records, marks, used))
}

// The first settled expansion whose seeds are all records that are not struck out.
pub fn pick(plan: &Plan, l: Label, records: &[u64], marks: &[u8], used: usize) -> Option<Label>
    requires { Lent used records.now marks.now }
    ensures { result ≡ first (served (plan_sheet plan.now) (standing used records.now marks.now)) (expansions (plan_sheet plan.now) l) }
{
    if clash_test(plan, l).found {
        return None;
    }
    match next_choice(plan, l) {
        None => seeds_stand(plan, l, records, marks, used).then_some(l),
        Some(Choice::Every(more)) => pick(plan, l.join(more), records, marks, used),
        Some(Choice::Either(m, n)) => match pick(plan, l.add(m), records, marks, used) {
            None => pick(plan, l.add(n), records, marks, used),
            picked => picked,
        },
    }
}

// How many settled expansions a seed has, modulo 2^64.
pub fn count_expansions(plan: &Plan, l: Label) -> u64
    ensures { result ≡ length (expansions (plan_sheet plan.now) l) % 2 ^ 64 }
{
    if clash_test(plan, l).found {
        return 0;
    }
    match next_choice(plan, l) {
        None => 1,
        Some(Choice::Every(marks)) => count_expansions(plan, l.join(marks)),
        Some(Choice::Either(m, n)) => {
            let one = count_expansions(plan, l.add(m));
            one.wrapping_add(count_expansions(plan, l.add(n)))
        }
    }
}
