// In which relation two lists of calls are, as far as a program can tell: the same, a bettered copy, or the same calls with some
// of one stamp exchanged. `relation` tells it, and what it tells is what the laws over two runs ask of their lists: of a bettered
// copy, that tighter quoting never costs; of a reordered one, that the order inside a millisecond never matters.
#![tactic(auto)]

mod at_once;
mod bettered;
mod exchange;
mod related;
pub mod relation;
mod reordered;
