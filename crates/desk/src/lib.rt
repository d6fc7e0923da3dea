// The desk that tells a member whether a quote counts: lines of text in, an answer out to each that asks. `request` reads a line,
// `desk` holds the rule and the terms that stand and gives the `answer`, and `tally` counts what was judged.
#![tactic(auto)]

pub mod answer;
pub mod desk;
pub mod request;
pub mod tally;
