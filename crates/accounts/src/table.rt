// The table of accounts, in order of their enrolment.
ghost use Rattle.std.specs.Prelude.{◌≤◌, vec_len, vec_capacity};

use crate::account::Account;

mod checks;
mod days;
mod enrolment;

pub const MOST_ACCOUNTS: usize = 128;

// Room for all 128 accounts is had at the start, so that nothing fails for want of memory later. Contracts name its accounts by
// a function over the fields and not by a model: what a refused call leaves is all of the table, its room too.
#[derive(Drop)]
pub struct Table {
    accounts: Vec<Account>,
    ghost few: { vec_len accounts ≤ 128 },
    ghost room: { 128 ≤ vec_capacity accounts },
}
