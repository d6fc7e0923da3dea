// The number that a word writes.
ghost use Rattle.std.specs.Prelude.{◌≡◌};
ghost use Rattle.lines.specs.Numbers.{number_of};

// The number of a word of decimal digits, where it fits 32 bits.
pub fn read_number(word: &str) -> Option<u32>
    ensures { result ≡ number_of word.now }
{
    if word.starts_with('+') {
        return None;
    }
    word.parse::<u32>().ok()
}
