// An exchange, by name.
ghost use Rattle.std.specs.Prelude.{◌≡◌};
ghost use Rattle.std.specs.Option.{ok_or};
ghost use Rattle.exchanges.specs.Exchanges.{exchange_named, unknown};

use crate::unknown_exchange::UnknownExchange;
use std::str::FromStr;

#[derive(Clone, Copy, PartialEq, Eq, Debug)]
pub enum Exchange {
    Vienna,
    Zagreb,
    Beta,
}

impl FromStr for Exchange {
    type Err = UnknownExchange;

    ghost from_str_gives = { λ name r. r ≡ ok_or (exchange_named name) unknown };

    fn from_str(name: &str) -> Result<Self, UnknownExchange> {
        match name {
            "vienna" => Ok(Exchange::Vienna),
            "zagreb" => Ok(Exchange::Zagreb),
            "beta" => Ok(Exchange::Beta),
            _ => Err(UnknownExchange),
        }
    }
}
