// The accounts of a meter: `account` is one of them and how its time is counted, `span` a time to count, `market` what they
// share, `table` holds up to 128 of them. The definitions of a whole meter (when a call is refused, what an accepted one leaves,
// what a run of calls gives) are in specs/.
#![tactic(auto)]

pub mod account;
pub mod day_figures;
pub mod figures;
pub mod market;
pub mod span;
pub mod statement;
pub mod table;
