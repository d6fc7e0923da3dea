// Lines of text that people and scripts write: `line_end` cuts a carriage return off, `words` takes a line apart, word
// by word, `number` reads the number that a word writes, `asked` what a line asks for, and `unreadable` says that nothing
// can be read. Nothing is allocated.
#![tactic(auto)]

pub mod asked;
pub mod line_end;
pub mod number;
pub mod unreadable;
pub mod words;
