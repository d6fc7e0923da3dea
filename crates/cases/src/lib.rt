// Cases run on the compiled code. Of the rules: `edges` has one table of quotes for each exchange (`table` says what a row
// is), `spreads` a second listing of Vienna's tables, `limits` what is refused, `months` the verdicts. Of the meter: `day`
// is one day at three thresholds and a list of calls, `calendar` the dates of 400 years, `refusal_numbers` every refusal's
// number, `compared` two runs side by side. `number` is what an answer is compared by.
#![tactic(auto)]

#[cfg(test)]
mod calendar;
#[cfg(test)]
mod compared;
#[cfg(test)]
mod day;
#[cfg(test)]
mod edges;
#[cfg(test)]
mod limits;
#[cfg(test)]
mod months;
#[cfg(test)]
mod number;
#[cfg(test)]
mod refusal_numbers;
#[cfg(test)]
mod spreads;
#[cfg(test)]
mod table;
