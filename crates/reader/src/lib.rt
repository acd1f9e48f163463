// The reader of a sheet's bytes. The first fault answers, with its reason and its place.
// What is right stands in alc's specs/Bytes.antt; specs/Promise.antt says what the reader promises, sheet's specs/Form.antt what the form means.
#![tactic(auto)]

pub mod sections; // the entries of a section, and the whole section

ghost use Rattle.reader.specs.Promise.{ReadPromise};

use crate::sections::{empty_section, fill_section};
use numbers::read_below;
use sheet::{Kind, Reason, Refusal, Sheet};

// The whole sheet, or the first fault.
pub fn read_sheet(s: &[u8]) -> Result<Sheet, Refusal>
    ensures { ReadPromise s.now result }
{
    let mut sheet = Sheet {
        lines: empty_section(),
        rules: empty_section(),
        individuals: 0,
        classes: empty_section(),
        roles: empty_section(),
    };
    let p = fill_section(s, 0, Kind::Lines, 0, 0, &mut sheet.lines)?;
    let lines = sheet.lines.count;
    let q = fill_section(s, p, Kind::Rules, lines, 0, &mut sheet.rules)?;
    let (individuals, t) = read_below(s, q, 9, Reason::OverLimit)?;
    sheet.individuals = individuals;
    let u = fill_section(s, t, Kind::Classes, lines, individuals, &mut sheet.classes)?;
    let v = fill_section(s, u, Kind::Roles, lines, individuals, &mut sheet.roles)?;
    if v < s.len() {
        return Err(Refusal {
            why: Reason::LeftOver,
            at: v,
        });
    }
    Ok(sheet)
}
