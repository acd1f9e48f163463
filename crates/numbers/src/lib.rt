// Numbers of one or two groups of seven bits: the number that starts at a place, with the place behind it, or the refusal.
// Why bytes and place stay two parameters says reader's sections.rt.
// What is right stands in alc's specs/Bytes.antt (number_at, below_at); sheet's specs/Form.antt (reading_of) says what an answer says of a reading.
#![tactic(auto)]

ghost use Rattle.std.specs.Prelude.{◌≡◌};
ghost use Rattle.alc.specs.Bytes.{number_at, below_at};
ghost use Rattle.sheet.specs.Form.{reason_number, reading_of};

use sheet::{Reason, Refusal};

// A fault of form stands at the number's first byte, or at the sheet's length if it has none.
#[tactic(auto, unfolding(alc::specs::Bytes::number_at))]
pub fn read_number(s: &[u8], at: usize) -> Result<(u16, usize), Refusal>
    ensures { reading_of result ≡ number_at s.now at }
{
    let Some(&low) = s.get(at) else {
        return Err(Refusal {
            why: Reason::Cut,
            at: s.len(),
        });
    };
    if low < 128 {
        return Ok((u16::from(low), at + 1));
    }
    let Some(&high) = s.get(at + 1) else {
        return Err(Refusal {
            why: Reason::Cut,
            at,
        });
    };
    if high == 0 || 127 < high {
        return Err(Refusal {
            why: Reason::BadlyFormed,
            at,
        });
    }
    Ok((u16::from(low) - 128 + 128 * u16::from(high), at + 2))
}

// A number below the limit; any other is refused for the given reason. Document 01 names the form: each number is taken apart by let .. else.
#[tactic(auto, unfolding(alc::specs::Bytes::below_at))]
pub fn read_below(s: &[u8], at: usize, limit: u16, why: Reason) -> Result<(u16, usize), Refusal>
    ensures { reading_of result ≡ below_at s.now limit (reason_number why) at }
{
    let number = read_number(s, at);
    let Ok((v, next)) = number else {
        return number;
    };
    if v < limit {
        Ok((v, next))
    } else {
        Err(Refusal { why, at })
    }
}
