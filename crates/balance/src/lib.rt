// The worst-case balance of a sheet and a room: what is left of the room if the sheet needs as many records as it can. Below zero is an answer and no error.
// What is right stands in alc's specs/Seeds.antt (quantifiers, bound) and specs/Replies.antt (balance_reply); specs/Balance.antt says which of them an answer is.
#![tactic(auto)]

ghost use Rattle.std.specs.Prelude.{◌≡◌, ◌*◌, ◌-◌, ◌^◌, ◌≤◌, pos, ◌-ℤ◌};
ghost use Rattle.alc.specs.Seeds.{is_quantified, quantifiers};
ghost use Rattle.alc.specs.Promises.{BalancePromise};
ghost use Rattle.sheet.specs.Form.{line_of, sheet_of};
ghost use Rattle.balance.specs.Balance.{margin_balance};

use alc::Line;
use reader::read_sheet;
use sheet::{Entry, Reason, Refusal, Sheet};

// Is it a some or only line?
fn is_quantified(entry: &Entry) -> bool
    ensures { result ≡ is_quantified (line_of entry.now) }
{
    matches!(Line::from(*entry), Line::Some(..) | Line::Only(..))
}

// How many lines are some or only lines.
fn quantifiers(sheet: &Sheet) -> u64
    requires { sheet.now.lines.count ≤ 32 }
    ensures { (result ≡ quantifiers (sheet_of sheet.now)) × (result ≤ 32) }
{
    let lines = &sheet.lines.entries[..usize::from(sheet.lines.count)];
    lines.iter().filter(|entry| is_quantified(entry)).count() as u64
}

// The records that e such lines can need: e·2^(e-1), and 0 for none.
fn worst_of(e: u64) -> u64
    requires { e ≤ 32 }
    ensures { (result ≡ e * 2 ^ (e - 1)) × (result ≤ 68719476736) }
{
    if e == 0 {
        return 0;
    }
    e * (1u64 << (e - 1))
}

// The room minus the bound, exact at and around zero: document 01 names the form, i64 subtraction.
fn left_over(room: u64, bound: u64) -> i64
    requires room_bound { room ≤ 4096 }
    requires bound_bound { bound ≤ 68719476736 }
    ensures { result ≡ pos room -ℤ pos bound }
{
    (room as i64) - (bound as i64)
}

// 7 first, then the sheet's fault, then what is left.
pub fn balance(sheet: &[u8], room: u64) -> Result<i64, Refusal>
    ensures { BalancePromise sheet.now room (margin_balance result) }
{
    if 4096 < room {
        return Err(Refusal {
            why: Reason::LentBadly,
            at: 0,
        });
    }
    let form = read_sheet(sheet)?;
    Ok(left_over(room, worst_of(quantifiers(&form))))
}
