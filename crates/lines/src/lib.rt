// Lines of text: those of standard input with their words, and numbers and lists on standard output. It knows nothing of sheets.
// It rests on std alone. What words say is proved (specs/Words.antt). No contract can speak of what is read or printed: that is compared with stored output, or with a text in a test, and proved to be safe and to end.
#![tactic(auto)]

pub mod input; // standard input, line by line
pub mod print; // numbers and lists
pub mod words; // the words of a line, and what they say
