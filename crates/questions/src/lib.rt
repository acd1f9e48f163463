// Questions about sheets on standard input, one a line, and one line of answer for each.
//   sat HEX ROOM MARKS WORDS: the reply's number and value, and all words of the model buffer as it ends, or `untouched`
//   causes HEX PORT CLASS ROOM MARKS SLOTS: the same, with the slots of the list buffer
//   balance HEX ROOM: `bal` and what is left, or the refusal's number and value
//   write LENGTH N N ..: the writer's number and value for these numbers and a buffer of that length; then the bytes written in hexadecimal, or `untouched`
// HEX is the sheet in hexadecimal without blanks, and - for an empty one. Any other question is answered `what?`; lines without words and remarks are passed over.
// docs/FORMAT.md has the grammar. A line is answered before more of the input is read.
// It rests on desk, answers, sheet, balance and writer for the answers, and on lines and std for reading and printing.
#![tactic(auto)]

mod ones; // buffers of ones, lent and then printed

ghost use Rattle.std.specs.Prelude.{◌≡◌, ◌≤◌, length, IfSome};
ghost use Rattle.lines.specs.Words.{word_at, number_said, within};
ghost use Rattle.questions.specs.declared.TheConstants.{RECORDS, MARKS};

use answers::Answer;
use lines::input::Lines;
use lines::{input, print, words};
use ones::Ones;
use std::io::Read;
use writer::Unwritten;

// The most records, marks, words and slots that a question may lend.
const RECORDS: usize = 5000;

const MARKS: usize = 8192;

const WORDS: usize = 65536;

const SLOTS: usize = 4096;

// The most bytes that a sheet may have.
const BYTES: usize = 4096;

// The most numbers that a line may say, and the longest buffer that it may ask for.
const NUMBERS: usize = 2048;

// The size that the n-th word of a line says, if that is not above the most.
#[tactic(auto, unfolding(lines::specs::Words::within))]
fn up_to(line: &[u8], n: usize, most: usize) -> Option<usize>
    ensures is { result ≡ within most (number_said (word_at line.now n)) }
    ensures bounded { IfSome result (λ k. k ≤ most) }
{
    let size = usize::try_from(words::number(line, n)?).ok()?;
    (size <= most).then_some(size)
}

// What a question lends: records, marks, and room for the result.
#[derive(Clone, Copy)]
struct Lent<const MOST: usize> {
    records: usize,
    marks: usize,
    room: usize,
    ghost record_bound: { records ≤ RECORDS },
    ghost mark_bound: { marks ≤ MARKS },
    ghost room_bound: { room ≤ MOST },
}

impl<const MOST: usize> Lent<MOST> {
    // As three words of the line say, from the n-th on, if there is as much.
    fn said(line: &[u8], n: usize) -> Option<Self>
        requires { n ≤ 8 }
    {
        Some(Lent {
            records: up_to(line, n, RECORDS)?,
            marks: up_to(line, n + 1, MARKS)?,
            room: up_to(line, n + 2, MOST)?,
        })
    }

    // Lends it, of a buffer for the result, and prints the answer, and what was lent for the result as it ends. A refusal leaves all buffers alone.
    fn ask<T: Ones, F: FnOnce(&mut [u64], &mut [u8], &mut [T]) -> Answer>(
        self,
        rt: &impl Print,
        buffer: &mut [T],
        question: F,
    )
        requires enough { self.room ≤ length buffer.old }
        requires callable { F.IsAlwaysCallable question }
    {
        let mut records = [u64::ONES; RECORDS];
        let mut marks = [u8::ONES; MARKS];
        let result = &mut buffer[..self.room];
        let answer = question(
            &mut records[..self.records],
            &mut marks[..self.marks],
            result,
        );
        let number = answers::answer_number(answer);
        print::head(rt, number, answers::answer_value(answer));
        ones::print_list(rt, result, matches!(answer, Answer::Refused(..)));
    }
}

fn satisfy(rt: &impl Print, line: &[u8], bytes: &[u8]) -> Option<()> {
    let lent = Lent::<WORDS>::said(line, 2)?;
    lent.ask(rt, &mut [u32::ONES; WORDS], |records, marks, model| {
        desk::satisfy(bytes, records, marks, model)
    });
    Some(())
}

fn causes(rt: &impl Print, line: &[u8], bytes: &[u8]) -> Option<()> {
    let port = words::number(line, 2)?;
    let class = words::number(line, 3)?;
    let lent = Lent::<SLOTS>::said(line, 4)?;
    lent.ask(rt, &mut [u16::ONES; SLOTS], |records, marks, list| {
        desk::causes(bytes, port, class, records, marks, list)
    });
    Some(())
}

fn balance(rt: &impl Print, line: &[u8], bytes: &[u8]) -> Option<()> {
    let room = words::number(line, 2)?;
    match balance::balance(bytes, room) {
        Ok(left) => print::line(rt, format_args!("bal {left}")),
        Err(refusal) => {
            let number = sheet::reason_number(refusal.why);
            let at = refusal.at;
            print::line(rt, format_args!("{number} {at}"));
        }
    }
    Some(())
}

// The numbers of 16 bits that a line says behind its length, if each word says one, and how many they are.
fn numbers_said(line: &[u8], numbers: &mut [u16; NUMBERS]) -> Option<usize>
    ensures { IfSome result (λ n. n ≤ NUMBERS) }
{
    for (n, place) in numbers.iter_mut().enumerate() {
        if words::asks(line, b"write", n + 2) {
            return Some(n);
        }
        *place = up_to(line, n + 2, 65535)? as u16;
    }
    None
}

// What the writer says, and the buffer as it ends.
fn print_written(rt: &impl Print, written: Result<usize, Unwritten>, out: &[u8]) {
    let number = writer::written_number(written);
    print::head(rt, number, writer::written_value(written));
    match written {
        Ok(n) => ones::print_front(rt, out, n),
        Err(_) => ones::print_alone(rt, out),
    }
}

fn write(rt: &impl Print, line: &[u8]) -> Option<()> {
    let length = up_to(line, 1, NUMBERS)?;
    let mut numbers = [0; NUMBERS];
    let n = numbers_said(line, &mut numbers)?;
    let mut out = [u8::ONES; NUMBERS];
    let out = &mut out[..length];
    let written = writer::write_numbers(&numbers[..n], out);
    print_written(rt, written, out);
    Some(())
}

// What the line asks, if that is understood and there is as much as it lends. (For four words a table of functions is no plainer.)
fn question(rt: &impl Print, line: &[u8]) -> Option<()> {
    if words::asks(line, b"write", NUMBERS + 2) {
        return write(rt, line);
    }
    let mut bytes = [0; BYTES];
    let n = words::bytes(line, 1, &mut bytes)?;
    let sheet = bytes.get(..n)?;
    if words::asks(line, b"sat", 5) {
        satisfy(rt, line, sheet)
    } else if words::asks(line, b"causes", 7) {
        causes(rt, line, sheet)
    } else if words::asks(line, b"balance", 3) {
        balance(rt, line, sheet)
    } else {
        None
    }
}

// Answers a line as it was read. One that fills its buffer may have lost its end.
fn answer(rt: &impl Print, whole: &[u8]) {
    let line = words::trimmed(whole);
    if words::says_nothing(line) {
        return;
    }
    if whole.len() == input::SIZE || question(rt, line).is_none() {
        print::line(rt, "what?");
    }
}

// Answers every line that is read. Nothing says that the input ever ends, so the lines are counted.
pub fn answer_all(rt: &impl Print, from: &mut impl Read) {
    let mut lines = Lines::new(from);
    let mut buffer = [0; input::SIZE];
    for _ in 0..u64::MAX {
        let Some(line) = lines.next_line(&mut buffer) else {
            return;
        };
        answer(rt, line);
    }
}
