// The calls that change a meter, with their fields as given: `call` is one of them, `change` what a stamped one may set, and
// the others are what they carry. Each says whether its own fields are in range; nothing here knows of a meter.
#![tactic(auto)]

pub mod account_key;
pub mod call;
pub mod change;
pub mod date;
pub mod phase;
pub mod stamp;
