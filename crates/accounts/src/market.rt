// What all accounts share: how each of the 32 instruments trades, and whether the market is fast. Contracts read it by a
// function (`trading_in`) and not by a model, as they do the table.
ghost use Rattle.std.specs.Prelude.{◌≡◌, ◌≤◌, true};
ghost use Rattle.calls.specs.Calls.{change_in_range};
ghost use Rattle.accounts.specs.Settings.{quiet, trading_changed};
ghost use Rattle.accounts.specs.Views.{trading_in};

use calls::change::Change;
use calls::phase::Phase;

#[derive(Clone, Copy)]
pub struct Market {
    phases: [Phase; 32],
    fast: bool,
}

impl Market {
    // As a day opens: every phase closed, the market not fast.
    pub fn quiet() -> Market
        ensures { trading_in result ≡ quiet }
    {
        Market {
            phases: [Phase::Closed; 32],
            fast: false,
        }
    }

    pub fn phase_of(&self, instrument: u32) -> Phase
        requires low { 1 ≤ instrument }
        requires high { instrument ≤ 32 }
        ensures { result ≡ (trading_in self.now).phase instrument }
    {
        self.phases[instrument as usize - 1]
    }

    pub fn is_fast(&self) -> bool
        ensures { result ≡ (trading_in self.now).fast }
    {
        self.fast
    }

    // Sets what the change sets of the market.
    pub fn change(&mut self, change: &Change)
        requires { change_in_range change.now ≡ true }
        ensures { trading_in self.new ≡ trading_changed change.now (trading_in self.old) }
    {
        match *change {
            Change::Phase { instrument, phase } => {
                if let Ok(phase) = Phase::try_from(phase) {
                    self.phases[instrument as usize - 1] = phase;
                }
            }
            Change::Fast { flag } => {
                self.fast = flag == 1;
            }
            Change::Exempt { .. } | Change::Quote { .. } | Change::Withdraw { .. } => {}
        }
    }
}
