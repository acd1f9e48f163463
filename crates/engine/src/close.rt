// Closing: the seeds of every settled expansion of every record, breadth first, until nothing is new or there is no room.
ghost use Rattle.std.specs.Prelude.{◌≤◌, length};
ghost use Rattle.alc.specs.Seeds.{successors, bound, reach};
ghost use Rattle.plan.specs.Plan.{plan_sheet};
ghost use Rattle.tableau.specs.Records.{recorded, GrownTo};
ghost use Rattle.engine.specs.Ledger.{Known};

use plan::Plan;
use tableau::records::{Full, label_of};
use tableau::walks::collect;

// The records from `start` on are looked at; those before are closed already.
pub fn close(plan: &Plan, records: &mut [u64], start: usize, count: usize) -> Result<usize, Full>
    requires count_in_bounds { count ≤ length records.old }
    requires known { Known (plan_sheet plan.now) (recorded count records.old) }
    ensures { GrownTo (reach (successors (plan_sheet plan.now)) (bound (plan_sheet plan.now)) start (recorded count records.old)) records.old result records.new }
{
    let mut used = count;
    let mut i = start;
    // A worklist, whose end grows in every turn: so it is a `while`, and no range.
    while i < used {
        used = collect(plan, label_of(records[i]), records, used)?;
        i += 1;
    }
    Ok(used)
}
