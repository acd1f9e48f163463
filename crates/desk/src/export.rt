// What C and Rust are handed, by the crate desk_c: the public functions with a code and a carried value in the place of an enum.
// Each keeps the whole promise of the function that it calls, and asks for nothing: any bytes, any numbers, any buffers.
ghost use Rattle.std.specs.Prelude.{◌≡◌, ◌<◌, pos};
ghost use Rattle.alc.specs.Replies as replies;
ghost use Rattle.alc.specs.Promises.{SatisfyPromise, CausesPromise, BalancePromise};
ghost use Rattle.alc.specs.Writing.{WritePromise};

use crate::{causes, satisfy};
use answers::{answer_number, answer_value};
use balance::balance;
use sheet::reason_number;
use writer::{write_numbers, written_number, written_value};

// `satisfy`: document 01's number, and what it carries.
pub fn bargaindune_satisfy(
    sheet: &[u8],
    records: &mut [u64],
    marks: &mut [u8],
    model: &mut [u32],
    carried: &mut u64,
) -> u64
    ensures { SatisfyPromise sheet.now records.old marks.old model.old (record { number = result; carries = carried.new; records = records.new; marks = marks.new; out = model.new }) }
{
    let answer = satisfy(sheet, records, marks, model);
    *carried = answer_value(answer) as u64;
    answer_number(answer)
}

// `causes`: document 01's number, and what it carries.
pub fn bargaindune_causes(
    sheet: &[u8],
    port: u64,
    class: u64,
    records: &mut [u64],
    marks: &mut [u8],
    list: &mut [u16],
    carried: &mut u64,
) -> u64
    ensures { CausesPromise sheet.now port class records.old marks.old list.old (record { number = result; carries = carried.new; records = records.new; marks = marks.new; out = list.new }) }
{
    let listed = causes(sheet, port, class, records, marks, list);
    *carried = answer_value(listed) as u64;
    answer_number(listed)
}

// `balance`: 0, which is no number of document 01, with what is left; or the refusal's number, with its place. What is not told is 0.
pub fn bargaindune_balance(sheet: &[u8], room: u64, carried: &mut u64, left: &mut i64) -> u64
    ensures left { result ≡ 0 → BalancePromise sheet.now room (replies.left left.new) × (carried.new ≡ 0) }
    ensures refused { 0 < result → BalancePromise sheet.now room (replies.faulty result carried.new) × (left.new ≡ pos 0) }
{
    match balance(sheet, room) {
        Ok(rest) => {
            *carried = 0;
            *left = rest;
            0
        }
        Err(refusal) => {
            *carried = refusal.at as u64;
            *left = 0;
            reason_number(refusal.why)
        }
    }
}

// `write_numbers`: 0, 16, or the refusal's number, and what it carries.
pub fn bargaindune_write(numbers: &[u16], out: &mut [u8], carried: &mut u64) -> u64
    ensures { WritePromise numbers.now out.old (record { number = result; carries = carried.new; out = out.new }) }
{
    let written = write_numbers(numbers, out);
    *carried = written_value(written) as u64;
    written_number(written)
}
