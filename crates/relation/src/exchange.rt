// Calls that may change places with each other.
ghost use Rattle.std.specs.Prelude.{◌≡◌, true, Decides};
ghost use Rattle.laws.specs.Exchange.{thing, Exchangeable};

use crate::at_once::changes_at_once;
use calls::call::Call;
use calls::change::Change;

// Whether two changes set the same thing. Arm by arm: an enum of things with a derived equality would be longer than these.
fn same_thing(a: &Change, b: &Change) -> bool
    ensures { Decides result (thing a.now ≡ thing b.now) }
{
    match (*a, *b) {
        (Change::Phase { instrument: i, .. }, Change::Phase { instrument: j, .. }) => i == j,
        (Change::Fast { .. }, Change::Fast { .. }) => true,
        (Change::Exempt { key: k, .. }, Change::Exempt { key: l, .. }) => k == l,
        (
            Change::Quote { key: k, .. } | Change::Withdraw { key: k },
            Change::Quote { key: l, .. } | Change::Withdraw { key: l },
        ) => k == l,
        _ => false,
    }
}

// Whether two calls have one stamp and set different things.
pub fn may_exchange(a: &Call, b: &Call) -> bool
    ensures { result ≡ true → Exchangeable a.now b.now }
{
    changes_at_once(a, b).is_some_and(|(c, d)| !same_thing(&c, &d))
}
