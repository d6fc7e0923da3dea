// What a line asks of the desk. Each pattern names a line's words in their order, which a conversion from an array would hide.
ghost use Rattle.std.specs.Prelude.{◌≡◌};
ghost use Rattle.desk.specs.Requests.{asked_by, terms_asked, quote_asked};

use lines::asked::Asked;
use lines::unreadable::Unreadable;
use lines::words::Words;
use rules::conditions::Conditions;
use rules::sides::Sides;

#[derive(Clone, Copy, PartialEq, Eq)]
pub enum Request {
    Terms(Conditions),
    Quote(Sides),
}

impl Asked for Request {
    ghost asked_by = { asked_by };

    fn asked(first: &str, rest: Words) -> Result<Self, Unreadable> {
        match first {
            "terms" => Ok(Request::terms(rest.numbers()?)),
            "quote" => Ok(Request::quote(rest.numbers()?)),
            _ => Err(Unreadable),
        }
    }
}

impl Request {
    fn terms(numbers: [u32; 5]) -> Request
        ensures { result ≡ terms_asked numbers }
    {
        let [class, tier, threshold, limit, minimum] = numbers;
        Request::Terms(Conditions {
            class,
            tier,
            limit,
            minimum,
            threshold,
        })
    }

    fn quote(numbers: [u32; 4]) -> Request
        ensures { result ≡ quote_asked numbers }
    {
        let [bid, ask, bid_size, ask_size] = numbers;
        Request::Quote(Sides {
            bid,
            ask,
            bid_size,
            ask_size,
        })
    }
}
