// How the widest spread of a class is found: as a share of the price, or as a fixed amount from one of two tables.
ghost use Rattle.std.specs.Prelude.{◌≡◌, ok_or};
ghost use Rattle.rules.specs.declared.refusal.Refusal.TheVariants.{FieldOutOfRange};
ghost use Rattle.rules.specs.Tiers.{tier_of};

use crate::refusal::Refusal;

#[derive(Clone, Copy)]
pub enum Tier {
    Relative,
    Stagnating,
    Fixed,
}

// The tier that has this number in terms as they are given.
impl TryFrom<u32> for Tier {
    type Error = Refusal;

    ghost try_from_gives = { λ number r. r ≡ ok_or (tier_of number) FieldOutOfRange };

    fn try_from(number: u32) -> Result<Self, Refusal> {
        match number {
            0 => Ok(Tier::Relative),
            1 => Ok(Tier::Stagnating),
            2 => Ok(Tier::Fixed),
            _ => Err(Refusal::FieldOutOfRange),
        }
    }
}
