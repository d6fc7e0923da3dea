// The laws over runs of a meter: tighter quoting never costs, the order inside a millisecond never matters, and time is what
// the milliseconds say. `replay` runs a list of calls on a meter just made; `compare` runs two, and its contract holds the laws;
// `statements` has worked instances of them, and a second listing of what they share with the calls.
#![tactic(auto)]

pub mod compare;
pub mod replay;
pub mod statements;
