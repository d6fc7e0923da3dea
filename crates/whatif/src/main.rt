// whatif RULE: runs two scripts, parted by a line `--`, on two meters made alike, and prints how each account stands in both.
#![tactic(auto)]

mod uncompared;

use crate::uncompared::Uncompared;
use accounts::table::MOST_ACCOUNTS;
use calls::account_key::AccountKey;
use calls::call::Call;
use dialogue::contrast::Contrast;
use dialogue::standing::Standing;
use exchanges::by_rules::ByRules;
use exchanges::program::run_telling_work;
use laws::compare::{Compared, compare};
use laws::replay::Run;
use laws::statements::{instances_hold, listings_agree};
use lines::line_end::strip_return;
use relation::relation::{Relation, relation};
use rules::month_rule::MonthRule;
use rules::quote_rule::QuoteRule;
use rules::rulebook::Rulebook;
use script::scripts::Scripts;
use std::io;
use std::io::{BufRead, BufReader};
use std::process::ExitCode;

const NAME: &str = "whatif";

fn main(rt: HostRuntime) -> ExitCode {
    run_telling_work(
        &rt,
        NAME,
        "with two scripts on standard input, parted by a line --",
        CompareScripts,
    )
}

// Compares the two scripts of standard input, or says why not.
#[derive(Clone, Copy)]
struct CompareScripts;

impl ByRules for CompareScripts {
    type Outcome = Result<(), Uncompared>;

    ghost comes = { λ _ _ _ _ _. Unit {0} };

    fn by_rules<Q: QuoteRule + Copy + Drop, M: MonthRule + Copy + Drop>(
        self,
        rt: &HostRuntime,
        rulebook: Rulebook<Q, M>,
    ) -> Result<(), Uncompared> {
        let compared = compare_input(rt, rulebook);
        if let Err(why) = &compared {
            why.tell(rt, NAME);
        }
        compared
    }
}

fn compare_input<Q: QuoteRule + Copy + Drop, M: MonthRule + Copy + Drop>(
    rt: &HostRuntime,
    rulebook: Rulebook<Q, M>,
) -> Result<(), Uncompared> {
    let scripts = read_scripts(rt)?;
    contrast(rt, rulebook, scripts.first(), scripts.second())?;
    Ok(())
}

// The three lines that read are those of `answer_input`: a function over what is done with a line would have to be generic in
// its error, and be no plainer.
fn read_scripts(rt: &HostRuntime) -> Result<Scripts, Uncompared> {
    let mut scripts = Scripts::new(rt.alloc());
    let lines = BufReader::new(rt.alloc(), rt.stdin())?.split(rt.alloc(), b'\n');
    for (number, line) in (1u64..).zip(lines) {
        let text = String::from_utf8_lossy(rt.alloc(), &line?)?;
        scripts
            .take(strip_return(text.as_str()))
            .map_err(|untaken| Uncompared::at(number, untaken))?;
    }
    if !scripts.is_parted() {
        return Err(Uncompared::Unparted);
    }
    Ok(scripts)
}

fn contrast<Q: QuoteRule + Copy + Drop, M: MonthRule + Copy + Drop>(
    rt: &HostRuntime,
    rulebook: Rulebook<Q, M>,
    first: &[Call],
    second: &[Call],
) -> io::Result<()> {
    // what is proved of the definitions that the laws rest on; at run time the two do nothing
    instances_hold();
    listings_agree();
    let found = relation(rt.alloc(), &rulebook.quote_rule, first, second)?;
    let both = compare(rt.alloc(), rulebook, rulebook, first, second)?;
    print_relation(rt, found)?;
    print_run(rt, "first", &both.first)?;
    print_run(rt, "second", &both.second)?;
    print_accounts(rt, &both)
}

// What the second list is to the first, as far as it was found.
fn print_relation(rt: &HostRuntime, found: Option<Relation>) -> io::Result<()> {
    match found {
        Some(relation) => println!(rt; "relation: {relation}"),
        None => println!(rt; "relation: none that can be told"),
    }
}

// How many calls were accepted, and how many refused.
fn print_run<Q: QuoteRule + Drop, M: MonthRule + Drop>(
    rt: &HostRuntime,
    name: &str,
    run: &Run<Q, M>,
) -> io::Result<()> {
    let accepted = run.answers.iter().filter(|answer| answer.is_ok()).count();
    let refused = run.answers.iter().filter(|answer| answer.is_err()).count();
    println!(rt; "{name}: {accepted} accepted, {refused} refused")
}

// Each account of the first meter, and behind them those that only the second has.
fn print_accounts<Q: QuoteRule + Drop, M: MonthRule + Drop>(
    rt: &HostRuntime,
    both: &Compared<Q, M>,
) -> io::Result<()> {
    for key in (0..MOST_ACCOUNTS).filter_map(|place| both.first.meter.key_at(place)) {
        print_account(rt, both, key)?;
    }
    for key in (0..MOST_ACCOUNTS).filter_map(|place| both.second.meter.key_at(place)) {
        if both.first.meter.figures(&key).is_err() {
            print_account(rt, both, key)?;
        }
    }
    Ok(())
}

fn print_account<Q: QuoteRule + Drop, M: MonthRule + Drop>(
    rt: &HostRuntime,
    both: &Compared<Q, M>,
    key: AccountKey,
) -> io::Result<()> {
    rt.println(Contrast {
        key,
        first: Standing::of(&both.first.meter, &key),
        second: Standing::of(&both.second.meter, &key),
    })
}
