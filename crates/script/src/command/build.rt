// The call, or the question, that a verb and the numbers behind it make. Each pattern names a line's words in their order, which
// a conversion from an array would hide.
ghost use Rattle.std.specs.Prelude.{◌≡◌};
ghost use Rattle.script.specs.declared.verb.Verb.TheVariants.{Enrol, Strike, Open, Phase, Fast, Exempt, Quote, Withdraw, Close, Turn, Figures, Statement};
ghost use Rattle.script.specs.Commands.{asks};

use crate::command::Command;
use calls::account_key::AccountKey;
use calls::call::Call;
use calls::change::Change;
use calls::date::Date;
use rules::conditions::Conditions;
use rules::sides::Sides;

impl Command {
    pub(crate) fn enrol(numbers: [u32; 7]) -> Command
        ensures { result ≡ asks Enrol numbers }
    {
        let [maker, instrument, class, tier, threshold, limit, minimum] = numbers;
        Command::Call(Call::Enrol {
            key: AccountKey { maker, instrument },
            conditions: Conditions {
                class,
                tier,
                threshold,
                limit,
                minimum,
            },
        })
    }

    pub(crate) fn strike(numbers: [u32; 2]) -> Command
        ensures { result ≡ asks Strike numbers }
    {
        let [maker, instrument] = numbers;
        Command::Call(Call::Strike {
            key: AccountKey { maker, instrument },
        })
    }

    pub(crate) fn open(numbers: [u32; 3]) -> Command
        ensures { result ≡ asks Open numbers }
    {
        let [year, month, day] = numbers;
        Command::Call(Call::Open {
            date: Date { year, month, day },
        })
    }

    pub(crate) fn phase(numbers: [u32; 3]) -> Command
        ensures { result ≡ asks Phase numbers }
    {
        let [instrument, phase, stamp] = numbers;
        Command::Call(Call::At {
            stamp,
            change: Change::Phase { instrument, phase },
        })
    }

    pub(crate) fn fast(numbers: [u32; 2]) -> Command
        ensures { result ≡ asks Fast numbers }
    {
        let [flag, stamp] = numbers;
        Command::Call(Call::At {
            stamp,
            change: Change::Fast { flag },
        })
    }

    pub(crate) fn exempt(numbers: [u32; 4]) -> Command
        ensures { result ≡ asks Exempt numbers }
    {
        let [maker, instrument, flag, stamp] = numbers;
        Command::Call(Call::At {
            stamp,
            change: Change::Exempt {
                key: AccountKey { maker, instrument },
                flag,
            },
        })
    }

    pub(crate) fn quote(numbers: [u32; 7]) -> Command
        ensures { result ≡ asks Quote numbers }
    {
        let [maker, instrument, stamp, bid, ask, bid_size, ask_size] = numbers;
        Command::Call(Call::At {
            stamp,
            change: Change::Quote {
                key: AccountKey { maker, instrument },
                sides: Sides {
                    bid,
                    ask,
                    bid_size,
                    ask_size,
                },
            },
        })
    }

    pub(crate) fn withdraw(numbers: [u32; 3]) -> Command
        ensures { result ≡ asks Withdraw numbers }
    {
        let [maker, instrument, stamp] = numbers;
        Command::Call(Call::At {
            stamp,
            change: Change::Withdraw {
                key: AccountKey { maker, instrument },
            },
        })
    }

    pub(crate) fn close(numbers: [u32; 1]) -> Command
        ensures { result ≡ asks Close numbers }
    {
        let [stamp] = numbers;
        Command::Call(Call::Close { stamp })
    }

    pub(crate) fn turn(numbers: [u32; 0]) -> Command
        ensures { result ≡ asks Turn numbers }
    {
        let [] = numbers;
        Command::Call(Call::Turn)
    }

    pub(crate) fn figures(numbers: [u32; 2]) -> Command
        ensures { result ≡ asks Figures numbers }
    {
        let [maker, instrument] = numbers;
        Command::Figures(AccountKey { maker, instrument })
    }

    pub(crate) fn statement(numbers: [u32; 2]) -> Command
        ensures { result ≡ asks Statement numbers }
    {
        let [maker, instrument] = numbers;
        Command::Statement(AccountKey { maker, instrument })
    }
}
