// The writer of a sheet's bytes, from its form or from its numbers in the sheet's order. The bytes are laid first, the reader judges these, and only then is anything written:
// so the limits stand in the reader alone, and a refusal leaves the buffer as it was.
// What is right stands in alc's specs/Writing.antt, and of a form in specs/Promise.antt.
#![tactic(auto)]

pub mod form; // the numbers of a form
pub mod laid; // bytes laid one behind another

ghost use Rattle.std.specs.Prelude.{◌≡◌};
ghost use Rattle.alc.specs.Bytes.{read_sheet};
ghost use Rattle.alc.specs.Writing.{write_read, WritePromise};
ghost use Rattle.writer.specs.declared.Unwritten.TheVariants.{Refused};
ghost use Rattle.writer.specs.Promise.{FormPromise, written_number, written_value, wrote_of};

use crate::form::{MOST_LAID, lay_form, lay_numbers};
use crate::laid::Laid;
use reader::read_sheet;
use sheet::{Refusal, Sheet};

// Why nothing was written: the buffer is too short, with the length wanted; or what a reader would refuse.
#[derive(Clone, Copy)]
pub enum Unwritten {
    Long(usize),
    Refused(Refusal),
}

// The length of what was written, or why nothing was.
pub type Written = Result<usize, Unwritten>;

impl From<Refusal> for Unwritten {
    ghost from_gives = { λ r u. u ≡ Refused r };

    fn from(r: Refusal) -> Unwritten {
        Unwritten::Refused(r)
    }
}

// No sheet that is accepted has more numbers than 205; of more than these, so many are judged.
const MOST_NUMBERS: usize = 341;

// The reader says whether these bytes are a sheet, and why not; then they are put, if the buffer is long enough.
fn deliver(bytes: &[u8], out: &mut [u8]) -> Written
    ensures { wrote_of result out.new ≡ write_read out.old bytes.now (read_sheet bytes.now) }
{
    read_sheet(bytes)?;
    let n = bytes.len();
    if out.len() < n {
        return Err(Unwritten::Long(n));
    }
    out[..n].copy_from_slice(bytes);
    Ok(n)
}

// The bytes of numbers in the sheet's order; the reader says whether they are a sheet, and why not.
pub fn write_numbers(numbers: &[u16], out: &mut [u8]) -> Written
    ensures { WritePromise numbers.now out.old (wrote_of result out.new) }
{
    let mut laid = Laid::new();
    lay_numbers(&numbers[..numbers.len().min(MOST_NUMBERS)], &mut laid);
    deliver(laid.as_slice(), out)
}

// The bytes of a form, whatever stands in it.
pub fn write_sheet(sheet: Sheet, out: &mut [u8]) -> Written
    ensures { FormPromise sheet out.old (wrote_of result out.new) }
{
    let mut numbers = [0; MOST_LAID];
    let n = lay_form(sheet, &mut numbers);
    let mut laid = Laid::new();
    lay_numbers(&numbers[..n], &mut laid);
    deliver(laid.as_slice(), out)
}

// Request 01's number of an answer. It and the next are no `From`: the promises and the pages name these functions.
pub fn written_number(w: Written) -> u64
    ensures { result ≡ written_number w }
{
    match w {
        Ok(_) => 0,
        Err(Unwritten::Long(_)) => 16,
        Err(Unwritten::Refused(r)) => sheet::reason_number(r.why),
    }
}

// What it carries.
pub fn written_value(w: Written) -> usize
    ensures { result ≡ written_value w }
{
    match w {
        Ok(n) => n,
        Err(Unwritten::Long(n)) => n,
        Err(Unwritten::Refused(r)) => r.at,
    }
}
