// Striking out: a record is marked when none of its settled expansions has all its seeds standing, until nothing changes.
// Only the records from `start` on are looked at: those before were settled with an earlier joint label.
// Records, marks and how many are used stay three parameters, here and in judge: C lends two buffers, `used` changes at each call, and where there is no room
// nothing is known of them that a struct of the three could keep.
ghost use Rattle.std.specs.Prelude.{◌≡◌, ◌<◌};
ghost use Rattle.plan.specs.Plan.{plan_sheet};
ghost use Rattle.tableau.specs.Walks.{Lent};
ghost use Rattle.engine.specs.Ledger.{struck_at, Pass, Stable, Struck};

use plan::Plan;
use tableau::records::label_of;
use tableau::walks::pick;

// Strikes record i out where it has no such expansion, and says whether it did.
fn strike_at(plan: &Plan, i: usize, records: &[u64], marks: &mut [u8], used: usize) -> bool
    requires lent { Lent used records.now marks.old }
    requires i_lt_used { i < used }
    ensures { struck_at (plan_sheet plan.now) used records.now marks.old i ≡ record { marks = marks.new; changed = result } }
{
    if marks[i] != 0 || pick(plan, label_of(records[i]), records, marks, used).is_some() {
        return false;
    }
    marks[i] = 1;
    true
}

// The records from `start` on, the last first. Says whether one was struck out.
fn strike_pass(plan: &Plan, start: usize, records: &[u64], marks: &mut [u8], used: usize) -> bool
    requires { Lent used records.now marks.old }
    ensures { Pass (plan_sheet plan.now) used start records.now marks.old marks.new result }
{
    let mut changed = false;
    for i in (start..used).rev() {
        changed |= strike_at(plan, i, records, marks, used);
    }
    changed
}

// Until nothing more is struck out.
pub fn strike(plan: &Plan, start: usize, records: &[u64], marks: &mut [u8], used: usize)
    requires { Lent used records.now marks.old }
    ensures { Struck (plan_sheet plan.now) used start records.now marks.old marks.new × Stable (plan_sheet plan.now) used start records.now marks.new }
{
    // A fixed point: how many passes it takes only the passes tell, so it is a `while`.
    let mut changed = true;
    while changed {
        changed = strike_pass(plan, start, records, marks, used);
    }
}
