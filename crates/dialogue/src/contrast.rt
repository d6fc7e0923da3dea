// One account in two meters, as it is printed.
ghost use Rattle.std.specs.Prelude.{Some};
ghost use Rattle.dialogue.specs.Standings.{contrast_text};

use crate::standing::Standing;
use calls::account_key::AccountKey;
use std::fmt;

#[derive(Clone, Copy)]
pub struct Contrast {
    pub key: AccountKey,
    pub first: Standing,
    pub second: Standing,
}

impl fmt::Display for Contrast {
    ghost output = { λ c. Some (contrast_text c.key c.first c.second) };

    fn fmt<W: fmt::Write>(&self, f: &mut fmt::Formatter<W>) -> fmt::Result {
        let AccountKey { maker, instrument } = self.key;
        let first = self.first;
        let second = self.second;
        write!(f, "{maker} {instrument} => {first} | {second}")
    }
}
