// The desk: the public functions. Any bytes, any numbers, any buffers: each answer is named, and for each it is settled what every buffer holds.
// What is right stands in alc's specs/Replies.antt and specs/Promises.antt; specs/Desk.antt says what a question begins with, answers' specs/Answers.antt what an answer's number and value are.
#![tactic(auto)]

pub mod export; // for C and Rust

ghost use Rattle.std.specs.Prelude.{◌≡◌, ◌<◌};
ghost use Rattle.alc.specs.Promises.{SatisfyPromise, CausesPromise};
ghost use Rattle.answers.specs.Answers.{reply_of};
ghost use Rattle.desk.specs.Desk.{lent_badly, lent_read, opened_read};

use answers::Answer;
use answers::decide::decide;
use answers::query::put_causes;
use plan::{Plan, prepare};
use reader::read_sheet;
use sets::force::Query;
use sheet::{Reason, Refusal};
use zeros::clear;

// Over 4,096 records lent, or fewer mark bytes than records.
fn lent_badly(records: usize, marks: usize) -> bool
    ensures { result ≡ lent_badly records marks }
{
    4096 < records || marks < records
}

// What was lent is looked at first, then the sheet from front to back: the plan of an accepted sheet, or a refusal.
fn open_sheet(sheet: &[u8], records: usize, marks: usize) -> Result<Plan, Refusal>
    ensures { opened_read sheet.now result ≡ lent_read sheet.now records marks }
{
    if lent_badly(records, marks) {
        return Err(Refusal {
            why: Reason::LentBadly,
            at: 0,
        });
    }
    Ok(prepare(read_sheet(sheet)?))
}

// Is the sheet satisfiable? With its model, or the length that it wants.
pub fn satisfy(sheet: &[u8], records: &mut [u64], marks: &mut [u8], model: &mut [u32]) -> Answer
    ensures { SatisfyPromise sheet.now records.old marks.old model.old (reply_of result records.new marks.new model.new) }
{
    match open_sheet(sheet, records.len(), marks.len()) {
        Err(refusal) => Answer::Refused(refusal),
        Ok(plan) => {
            clear(model);
            let answer = decide(&plan, records, marks, model);
            clear(records);
            clear(marks);
            answer
        }
    }
}

// Which smallest sets of rules force the port into the class? Each by number, rule i worth 2^i; or how many there are.
pub fn causes(
    sheet: &[u8],
    port: u64,
    class: u64,
    records: &mut [u64],
    marks: &mut [u8],
    list: &mut [u16],
) -> Answer
    ensures { CausesPromise sheet.now port class records.old marks.old list.old (reply_of result records.new marks.new list.new) }
{
    match open_sheet(sheet, records.len(), marks.len()) {
        Err(refusal) => Answer::Refused(refusal),
        Ok(plan) => {
            let Some(query) = Query::on(&plan, port, class) else {
                return Answer::Refused(Refusal {
                    why: Reason::OffSheet,
                    at: 0,
                });
            };
            let answer = put_causes(&query, records, marks, list);
            clear(records);
            clear(marks);
            answer
        }
    }
}
