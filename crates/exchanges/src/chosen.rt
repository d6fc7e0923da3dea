// The exchange that a program is run for.
ghost use Rattle.std.specs.Prelude.{◌≡◌, ℕ, List, map, string_bytes};
ghost use Rattle.std.specs.Vec.Iter.{into_iter_items};
ghost use Rattle.exchanges.specs.Exchanges.{exchange_of};

use crate::exchange::Exchange;
use std::env;
use std::env::Args;

// The one that the arguments name: behind the program's own name there is just that of the exchange.
fn named_alone(mut arguments: Args) -> Option<Exchange>
    ensures { result ≡ exchange_of (map string_bytes (into_iter_items arguments)) }
{
    let _program = arguments.next()?;
    let name = arguments.next()?;
    if arguments.next().is_some() {
        return None;
    }
    name.as_str().parse().ok()
}

// Of whatever arguments the program was given; none where they can't be had.
pub fn chosen_exchange(rt: &HostRuntime) -> Option<Exchange>
    ensures { (arguments : List (List ℕ)) × (result ≡ exchange_of arguments) }
{
    named_alone(env::args(rt).ok()?)
}
