// What an exchange measures by: one quote rule and one month rule.
#[derive(Clone, Copy, Drop)]
pub struct Rulebook<Q, M> {
    pub quote_rule: Q,
    pub month_rule: M,
}
