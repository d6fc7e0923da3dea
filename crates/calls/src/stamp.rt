// Stamps: milliseconds after midnight.
pub const END_OF_DAY: u32 = 86_400_000;
