// The static library for C and Rust: the functions of desk's export.rt under the names that C calls. It rests on desk, whose clauses each one repeats.
// What these clauses say stands in alc's specs/Promises.antt and specs/Writing.antt; bindings/ has the callers.
#![tactic(auto)]

ghost use Rattle.std.specs.Prelude.{◌≡◌, ◌<◌, pos};
ghost use Rattle.alc.specs.Replies as replies;
ghost use Rattle.alc.specs.Promises.{SatisfyPromise, CausesPromise, BalancePromise};
ghost use Rattle.alc.specs.Writing.{WritePromise};

// Is the sheet satisfiable? Document 01's number, and what it carries.
#[unsafe(no_mangle)]
pub extern "C" fn bargaindune_satisfy(
    sheet: &[u8],
    records: &mut [u64],
    marks: &mut [u8],
    model: &mut [u32],
    carried: &mut u64,
) -> u64
    ensures { SatisfyPromise sheet.now records.old marks.old model.old (record { number = result; carries = carried.new; records = records.new; marks = marks.new; out = model.new }) }
{
    desk::export::bargaindune_satisfy(sheet, records, marks, model, carried)
}

// Which smallest sets of rules force the port into the class? Document 01's number, and what it carries.
#[unsafe(no_mangle)]
pub extern "C" fn bargaindune_causes(
    sheet: &[u8],
    port: u64,
    class: u64,
    records: &mut [u64],
    marks: &mut [u8],
    list: &mut [u16],
    carried: &mut u64,
) -> u64
    ensures { CausesPromise sheet.now port class records.old marks.old list.old (record { number = result; carries = carried.new; records = records.new; marks = marks.new; out = list.new }) }
{
    desk::export::bargaindune_causes(sheet, port, class, records, marks, list, carried)
}

// What is left of a room of records in the worst case: 0, or the refusal's number, with its place.
#[unsafe(no_mangle)]
pub extern "C" fn bargaindune_balance(
    sheet: &[u8],
    room: u64,
    carried: &mut u64,
    left: &mut i64,
) -> u64
    ensures left { result ≡ 0 → BalancePromise sheet.now room (replies.left left.new) × (carried.new ≡ 0) }
    ensures refused { 0 < result → BalancePromise sheet.now room (replies.faulty result carried.new) × (left.new ≡ pos 0) }
{
    desk::export::bargaindune_balance(sheet, room, carried, left)
}

// The sheet of these numbers, in bytes: 0, 16, or the refusal's number, and what it carries.
#[unsafe(no_mangle)]
pub extern "C" fn bargaindune_write(numbers: &[u16], out: &mut [u8], carried: &mut u64) -> u64
    ensures { WritePromise numbers.now out.old (record { number = result; carries = carried.new; out = out.new }) }
{
    desk::export::bargaindune_write(numbers, out, carried)
}
