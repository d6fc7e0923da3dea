// The quoting rules: what a quote is, what an account's terms are, which quotes meet which terms under each exchange's rule,
// and what verdict a month's figures get. One type to a module; `quote_rule` and `month_rule` hold the two traits with
// their laws, `rulebook` one rule of each, and `statements` what is proved of the definitions alone, the edges among it.
#![tactic(auto)]

pub mod beta;
pub mod conditions;
pub mod majority;
pub mod month_figures;
pub mod month_rule;
pub mod quote;
pub mod quote_rule;
pub mod ranges;
pub mod ratio;
pub mod refusal;
pub mod rulebook;
pub mod sides;
pub mod statements;
pub mod terms;
pub mod tier;
pub mod verdict;
pub mod vienna;
pub mod zagreb;
