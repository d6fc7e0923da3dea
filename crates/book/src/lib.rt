// The book of a meter: its accounts with the day and the month that they are counted in. `book` holds the type and its
// bounds; below it stand what is against a call, what an accepted call leaves, and what the book tells of an account.
#![tactic(auto)]

pub mod book;
