// Calls of one stamp.
ghost use Rattle.std.specs.Prelude.{◌≡◌, ℕ, IfSome};

use calls::call::Call;
use calls::change::Change;

// The two changes, where both calls set something from one stamp on.
pub fn changes_at_once(a: &Call, b: &Call) -> Option<(Change, Change)>
    ensures { IfSome result (λ p. (n : ℕ) × (a.now ≡ Call.At n p.0) × (b.now ≡ Call.At n p.1)) }
{
    match (*a, *b) {
        (
            Call::At {
                stamp: n,
                change: c,
            },
            Call::At {
                stamp: m,
                change: d,
            },
        ) if n == m => Some((c, d)),
        _ => None,
    }
}
