// What comes of a line of text: `answerer` is who answers what lines ask for, `fault` why a line has no answer, `answered` a
// line with what came of it, as it is printed, and `input` has all of standard input answered.
#![tactic(auto)]

pub mod answered;
pub mod answerer;
pub mod fault;
pub mod input;
