// A meter asked by lines of text: one command in, one answer out. `console` holds the meter and gives the `answer`, and
// `contrast` is one account's `standing` in two meters.
#![tactic(auto)]

pub mod answer;
pub mod console;
pub mod contrast;
pub mod standing;
