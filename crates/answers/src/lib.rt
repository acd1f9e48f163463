// The answers of document 01, and the two ways to one over a sheet that was read: the verdict with its model, and the cause list.
// What is right stands in alc's specs/Model.antt and specs/Causes.antt; specs/Answers.antt says what an answer's number and value are, and what each leaves in its buffer.
#![tactic(auto)]

pub mod decide; // the verdict on a sheet, and its model
pub mod query; // the cause list of a port and a class

ghost use Rattle.std.specs.Prelude.{◌≡◌};
ghost use Rattle.answers.specs.Answers.{answer_number, answer_value};

use sheet::Refusal;

// The answers of document 01, each with what it carries.
#[derive(Clone, Copy)]
pub enum Answer {
    Refused(Refusal),
    Model(usize),
    LongModel(usize),
    Unsatisfiable,
    OutOfSpace,
    Causes(usize),
    LongList(usize),
}

// Document 01's number of an answer. It and the next are no `From`: the promises and the pages name these functions.
pub fn answer_number(a: Answer) -> u64
    ensures { result ≡ answer_number a }
{
    match a {
        Answer::Refused(r) => sheet::reason_number(r.why),
        Answer::Model(_) => 10,
        Answer::LongModel(_) => 11,
        Answer::Unsatisfiable => 12,
        Answer::OutOfSpace => 13,
        Answer::Causes(_) => 14,
        Answer::LongList(_) => 15,
    }
}

// What it carries.
pub fn answer_value(a: Answer) -> usize
    ensures { result ≡ answer_value a }
{
    match a {
        Answer::Refused(r) => r.at,
        Answer::Model(words) | Answer::LongModel(words) => words,
        Answer::Unsatisfiable | Answer::OutOfSpace => 0,
        Answer::Causes(sets) | Answer::LongList(sets) => sets,
    }
}
