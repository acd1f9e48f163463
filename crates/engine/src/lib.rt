// The engine: closing the records, striking out, and the verdict on joint labels.
// What is right stands in alc's specs; specs/Ledger.antt says what records and marks mean, specs/Verdicts.antt what a verdict says.
#![tactic(auto)]

pub mod close; // closing
pub mod judge; // the verdict on joint labels
pub mod strike; // striking out
