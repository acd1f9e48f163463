// One label over a plan of the sheet: the next step of its work. It rests on plan, and on the marks of alc.
// What is right stands in alc's specs/Label.antt and specs/Settle.antt; specs/Choice.antt says what the answers mean.
#![tactic(auto)]

pub mod step; // the first demand that is not met
