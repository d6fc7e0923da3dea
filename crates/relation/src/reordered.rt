// Calls brought into another order, exchange by exchange.
ghost use Rattle.std.specs.Prelude.{◌≡◌, ◌<◌, ◌≤◌, true, length, IfSome, IfOk, slice_index_or};
ghost use Rattle.relation.specs.Related.{Rearranged};

use crate::exchange::may_exchange;
use calls::call::Call;
use std::alloc::{AllocError, Global};

// The next place from `start` on where the call stands. By places: of what `skip(start).position(..)` finds the proof did not
// close.
fn place_of(call: &Call, calls: &[Call], start: usize) -> Option<usize>
    ensures { IfSome result (λ k. (start ≤ k) × (k < length calls.now) × (slice_index_or calls.now k call.now ≡ call.now)) }
{
    (start..calls.len()).find(|k| calls[*k] == *call)
}

// Brings the call at one place forward to another, past calls that it may change places with. Whether it came there.
fn bring_forward(calls: &mut [Call], from: usize, to: usize) -> bool
    requires { (to ≤ from) × (from < length calls.old) }
    ensures { Rearranged calls.old calls.new }
{
    let moving = calls[from];
    if !calls[to..from]
        .iter()
        .all(|earlier| may_exchange(earlier, &moving))
    {
        return false;
    }
    calls[to..=from].rotate_right(1);
    true
}

// Whether the first list can be brought into the order of the second: tried on a copy, place by place.
pub fn is_reordered(heap: Global, first: &[Call], second: &[Call]) -> Result<bool, AllocError>
    ensures { IfOk result (λ told. (told ≡ true → Rearranged first.now second.now)) }
{
    let mut calls = Vec::from_slice(heap, first)?;
    for (place, call) in second.iter().enumerate() {
        let Some(from) = place_of(call, &calls, place) else {
            return Ok(false);
        };
        if !bring_forward(&mut calls, from, place) {
            return Ok(false);
        }
    }
    Ok(calls.as_slice() == second)
}
