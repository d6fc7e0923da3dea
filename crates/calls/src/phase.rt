// How an instrument trades.
ghost use Rattle.std.specs.Prelude.{◌≡◌, ok_or};
ghost use Rattle.rules.specs.declared.refusal.Refusal.TheVariants.{FieldOutOfRange};
ghost use Rattle.calls.specs.Phases.{phase_of, continuous};

use rules::refusal::Refusal;

#[derive(Clone, Copy, PartialEq, Eq)]
pub enum Phase {
    Closed,
    Auction,
    Continuous,
    Interrupted,
}

// The phase that has this number in calls.
impl TryFrom<u32> for Phase {
    type Error = Refusal;

    ghost try_from_gives = { λ number r. r ≡ ok_or (phase_of number) FieldOutOfRange };

    fn try_from(number: u32) -> Result<Self, Refusal> {
        match number {
            0 => Ok(Phase::Closed),
            1 => Ok(Phase::Auction),
            2 => Ok(Phase::Continuous),
            3 => Ok(Phase::Interrupted),
            _ => Err(Refusal::FieldOutOfRange),
        }
    }
}

impl Phase {
    pub fn is_continuous(&self) -> bool
        ensures { result ≡ continuous self.now }
    {
        *self == Phase::Continuous
    }
}
