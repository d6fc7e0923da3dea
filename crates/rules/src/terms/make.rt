// The terms of given conditions. It stands apart from the type, since what it cites names the type.
ghost use Rattle.std.specs.Prelude.{◌≡◌};
ghost use Rattle.rules.specs.Terms.{terms_of, TermsAnswer};

use crate::conditions::Conditions;
use crate::ranges::within;
use crate::refusal::Refusal;
use crate::terms::Terms;
use crate::tier::Tier;

const CLASSES: u32 = 7;

const MAX_BASIS_POINTS: u32 = 10_000;

const MAX_MINIMUM: u32 = 4_000_000_000;

// The terms of these numbers, or a refusal where one is out of its range.
impl TryFrom<Conditions> for Terms {
    type Error = Refusal;

    ghost try_from_gives = { λ given r. (r ≡ terms_of given) × TermsAnswer given r };

    fn try_from(given: Conditions) -> Result<Self, Refusal> {
        let Conditions {
            class,
            tier,
            limit,
            minimum,
            threshold,
        } = given;
        let width = within(1, CLASSES, class) && within(1, MAX_BASIS_POINTS, limit);
        let in_range = width
            && within(1, MAX_MINIMUM, minimum)
            && within(1, MAX_BASIS_POINTS, threshold);
        if !in_range {
            return Err(Refusal::FieldOutOfRange);
        }
        Ok(Terms {
            class: class as u8,
            tier: Tier::try_from(tier)?,
            limit: limit as u16,
            minimum,
            threshold: threshold as u16,
        })
    }
}
