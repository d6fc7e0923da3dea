// What something was answered, as a number.
use rules::refusal::Refusal;

// The number of a refusal, and 0 where there is none.
pub(crate) fn number<T>(answer: &Result<T, Refusal>) -> u8 {
    match answer {
        Ok(_) => 0,
        Err(refusal) => refusal.number(),
    }
}
