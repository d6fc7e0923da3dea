// Scripts of calls as text, one call to a line: `verb` is a line's first word, `command` what the line asks, and
// `scripts` two scripts parted by a line `--`, with `untaken`, why a line is not taken into them.
#![tactic(auto)]

pub mod command;
pub mod scripts;
pub mod untaken;
pub mod verb;
