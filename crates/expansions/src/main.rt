// How many settled expansions each line of a sheet has: the sheet comes on standard input; for each line i, "i N" for the seed that line i holds.
// A sheet that is refused gives the number and the place of its refusal. Of a longer input the first 4,096 bytes are the sheet.
#![tactic(auto)]

ghost use Rattle.std.specs.Prelude.{◌≡◌, ◌<◌, ◌≤◌, ◌%◌, ◌^◌, length};
ghost use Rattle.alc.specs.declared.Mark.TheVariants.{Holds as holds};
ghost use Rattle.alc.specs.Label.{blank, add};
ghost use Rattle.alc.specs.Seeds.{expansions};
ghost use Rattle.plan.specs.Plan.{plan_sheet};

use alc::{Label, Mark};
use plan::{Plan, prepare};
use reader::read_sheet;
use sheet::reason_number;
use std::io::Read;
use tableau::walks::count_expansions;

// The settled expansions of the seed that line i holds.
fn expansions_of(plan: &Plan, i: usize) -> u64
    requires { i < 32 }
    ensures { result ≡ length (expansions (plan_sheet plan.now) (add blank (holds i))) % 2 ^ 64 }
{
    count_expansions(plan, Label::blank().add(Mark::Holds(i)))
}

// A write that fails is let go.
fn print_pair(rt: &impl Print, a: u64, b: u64) {
    let _ = println!(rt; "{a} {b}");
}

fn print_lines(rt: &impl Print, plan: &Plan) {
    for i in 0..plan.line_count() {
        print_pair(rt, i as u64, expansions_of(plan, i));
    }
}

fn answer(rt: &impl Print, s: &[u8]) {
    match read_sheet(s) {
        Ok(sheet) => print_lines(rt, &prepare(sheet)),
        Err(refusal) => print_pair(rt, reason_number(refusal.why), refusal.at as u64),
    }
}

// Reads until the buffer is full, the input ends or a read fails, and answers how many bytes it put at the front.
// A `while`: how much each read gives, only the read tells.
fn read_full(from: &mut impl Read, bytes: &mut [u8]) -> usize
    ensures { result ≤ length bytes.new }
{
    let mut done = 0;
    // How much a read gives only the read tells, so it is a `while`.
    while done < bytes.len() {
        match from.read(&mut bytes[done..]) {
            Ok(n) if 0 < n => done += n,
            _ => break,
        }
    }
    done
}

fn main(rt: HostRuntime) {
    let mut bytes = [0u8; 4096];
    let got = read_full(&mut rt.stdin(), &mut bytes);
    answer(&rt, &bytes[..got]);
}
