// A program that is run for the exchange that its one argument names.
ghost use Rattle.std.specs.Prelude.{ℕ, List};
ghost use Rattle.std.specs.Process.{exit_status};
ghost use Rattle.exchanges.specs.Ends.{Ends};
ghost use Rattle.exchanges.specs.Exchanges.{exchange_of};

use crate::by_rules::ByRules;
use crate::chosen::chosen_exchange;
use crate::told::Told;
use std::fmt;
use std::process::ExitCode;

// Does the work by the rules of the exchange that the arguments name. What kept it from being done the work has said itself.
// Status 0 for work that was done, and else 1.
pub fn run_telling_work<E: Drop, W: ByRules<Outcome = Result<(), E>> + Drop>(
    rt: &HostRuntime,
    name: &str,
    usage: &str,
    work: W,
) -> ExitCode
    ensures { (arguments : List (List ℕ)) × Ends (W.comes work) (exchange_of arguments) (exit_status result) }
{
    let Some(exchange) = chosen_exchange(rt) else {
        let _ = eprintln!(rt; "usage: {name} vienna|zagreb|beta, {usage}");
        return ExitCode::FAILURE;
    };
    match exchange.run(rt, work) {
        Ok(()) => ExitCode::SUCCESS,
        Err(_) => ExitCode::FAILURE,
    }
}

// The same, and says on standard error what kept the work from being done.
pub fn run_program<E: fmt::Display + Drop, W: ByRules<Outcome = Result<(), E>> + Drop>(
    rt: &HostRuntime,
    name: &str,
    usage: &str,
    work: W,
) -> ExitCode
    ensures { (arguments : List (List ℕ)) × Ends (W.comes work) (exchange_of arguments) (exit_status result) }
{
    run_telling_work(rt, name, usage, Told { name, work })
}
