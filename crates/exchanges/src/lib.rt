// The exchanges whose rules the programs know, by the names that they are given on a command line: `exchange` is one of them,
// `unknown_exchange` says that a name is none's, `chosen` is the one that a program is run for, `by_rules` work done by the
// rules of any, `program` a program as a whole, `told` work with what keeps it from being done said.
#![tactic(auto)]

pub mod by_rules;
pub mod chosen;
pub mod exchange;
pub mod program;
mod told;
pub mod unknown_exchange;
