// The meter: one quote rule, one month rule, and the book of its accounts. `meter` holds the type; below it stand the ten
// calls that change a meter, each over `apply`, `run` for a list of them, and the calls that ask.
#![tactic(auto)]

pub mod meter;
