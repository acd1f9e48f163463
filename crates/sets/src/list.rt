// The list of the smallest forcing sets. Sets go by number, so that every part of a set comes before it; a set one of whose parts forces is not judged.
// Records and marks stay two parameters, and that there is a mark for each record stays a clause of each function: C lends two buffers.
ghost use Rattle.std.specs.Prelude.{◌≡◌, false, ◌-◌, ◌^◌, ◌<◌, ◌≤◌, length, get_or, set};
ghost use Rattle.alc.specs.Bits.{members};
ghost use Rattle.alc.specs.Lists.{any};
ghost use Rattle.alc.specs.Causes.{with_rules};
ghost use Rattle.plan.specs.Plan.{plan_sheet};
ghost use Rattle.sets.specs.Sets.{contradicted_by, marked_by, slot_by, Flagged, TakenTo, ListedTo};

use crate::force::{Query, contradicts};
use alc::walk::Members;
use plan::Plan;
use tableau::records::Full;

// As many as there are sets of twelve rules: a flag for each, in fixed memory.
const SETS: usize = 4096;

// The top bit of a slot.
const CONTRADICTORY: u16 = 32768;

// What a smallest forcing set is: some finite interpretation meets it and the assertions, or none does.
#[derive(Clone, Copy)]
pub enum Cause {
    Catching,
    Contradictory,
}

// Whether the set without one of its rules forces. Where any part of a set does, one of these does, so that the smaller ones need not be looked at.
fn part_forces(flags: &[bool; SETS], set: u32) -> bool
    requires { set < 4096 }
    ensures { result ≡ any (λ i. get_or flags.now (set - 2 ^ i) false) (members 32 set) }
{
    for i in Members::of(set) {
        let less = set - (1u32 << i);
        if flags[less as usize] {
            return true;
        }
    }
    false
}

// A smallest forcing set: judged a second time, without "class fails".
fn mark_set(plan: &Plan, set: u32, records: &mut [u64], marks: &mut [u8]) -> Result<Cause, Full>
    requires records_in_bounds { length records.old ≤ length marks.old }
    ensures { result ≡ marked_by (contradicted_by (with_rules (plan_sheet plan.now) set) (length records.old)) }
{
    if contradicts(plan, set, records, marks)? {
        return Ok(Cause::Contradictory);
    }
    Ok(Cause::Catching)
}

// One set: judged if none of its parts forces; is it a cause? Its flag says from now on whether it forces.
fn take_set(
    query: &Query,
    set: u32,
    records: &mut [u64],
    marks: &mut [u8],
    flags: &mut [bool; SETS],
) -> Result<Option<Cause>, Full>
    requires records_in_bounds { length records.old ≤ length marks.old }
    requires is_set { set < 2 ^ length (plan_sheet query.now.plan.now).rules }
    requires flagged { Flagged (plan_sheet query.now.plan.now) query.now.port query.now.class set flags.old }
    ensures { TakenTo (plan_sheet query.now.plan.now) query.now.port query.now.class (length records.old) set result flags.new }
{
    if part_forces(flags, set) {
        flags[set as usize] = true;
        return Ok(None);
    }
    let forced = query.forces(set, records, marks)?;
    flags[set as usize] = forced;
    if forced {
        Ok(Some(mark_set(query.plan, set, records, marks)?))
    } else {
        Ok(None)
    }
}

// The slot of a cause.
fn slot_of(set: u16, cause: Cause) -> u16
    requires { set < 4096 }
    ensures { result ≡ slot_by cause set }
{
    match cause {
        Cause::Catching => set,
        Cause::Contradictory => set + CONTRADICTORY,
    }
}

// The next slot, if the list has it. It is no `get_mut`: tried, and once that is over a proof knows a slice's length and none of its elements.
fn put_slot(list: &mut [u16], at: usize, slot: u16)
    ensures { list.new ≡ set list.old at slot }
{
    if at < list.len() {
        list[at] = slot;
    }
}

// The causes, as far as the list holds them, and how many there are.
pub fn list_causes(
    query: &Query,
    records: &mut [u64],
    marks: &mut [u8],
    list: &mut [u16],
) -> Result<usize, Full>
    requires records_in_bounds { length records.old ≤ length marks.old }
    ensures listed_to { ListedTo (plan_sheet query.now.plan.now) query.now.port query.now.class (length records.old) list.old result list.new }
{
    let mut flags = [false; SETS];
    let mut found = 0;
    for set in 0..1u32 << query.plan.rule_count() {
        let taken = take_set(query, set, records, marks, &mut flags)?;
        if let Some(cause) = taken {
            put_slot(list, found, slot_of(set as u16, cause));
            found += 1;
        }
    }
    Ok(found)
}
