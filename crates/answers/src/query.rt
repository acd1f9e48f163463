// The cause list of a port and a class, over a sheet that was read.
// Records and marks stay two parameters, and that there is a mark for each record stays a clause of each function: C lends two buffers.
ghost use Rattle.std.specs.Prelude.{◌≤◌, length};
ghost use Rattle.alc.specs.Causes.{causes_answer};
ghost use Rattle.plan.specs.Plan.{plan_sheet};
ghost use Rattle.answers.specs.Answers.{Queried};

use crate::Answer;
use sets::force::Query;
use sets::list::list_causes;
use tableau::records::Full;
use zeros::clear;

// Out of space, the list, or how many causes there are. The list is cleared first, and again where it is no answer.
pub fn put_causes(query: &Query, records: &mut [u64], marks: &mut [u8], list: &mut [u16]) -> Answer
    requires records_in_bounds { length records.old ≤ length marks.old }
    ensures { Queried (causes_answer (plan_sheet query.now.plan.now) query.now.port query.now.class (length records.old)) (length list.old) result list.new }
{
    clear(list);
    match list_causes(query, records, marks, list) {
        Ok(n) if n <= list.len() => Answer::Causes(n),
        Ok(n) => {
            clear(list);
            Answer::LongList(n)
        }
        Err(Full) => {
            clear(list);
            Answer::OutOfSpace
        }
    }
}
