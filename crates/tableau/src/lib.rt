// The tableau: records, the walks over settled labels, and labels worked jointly, by the steps of one label.
// What is right stands in alc's specs; specs/ here says what records, walks and joint labels mean.
#![tactic(auto)]

pub mod clash; // the clash test of a label over a plan
pub mod joint; // the next step of a joint label
pub mod labels; // a joint label: the labels of up to eight individuals
pub mod records; // labels as records in a lent buffer
pub mod walks; // collecting, picking and counting over the settled expansions of a seed
