// Sets of rules: which of them force a port into a class, and the list of the smallest.
// What is right stands in alc's specs/Causes.antt; specs/Sets.antt says what the verdict on one set is, and what the list becomes.
// Records and marks stay two parameters, with the fact that no mark is missing: C lends two buffers, and a fact beside a `&mut` in a struct is not covered.
#![tactic(auto)]

pub mod chosen; // a plan with some of its rules
pub mod force; // a query, and the verdict on one set
pub mod list; // the list of the smallest sets
