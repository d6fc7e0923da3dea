// An account's terms as they are given, not yet held against any range. The tier is 0 relative, 1 stagnating, 2 fixed;
// limit and threshold are basis points. Numbers, since a call takes them as they come and refuses what is out of range.
#[derive(Clone, Copy, PartialEq, Eq)]
pub struct Conditions {
    pub class: u32,
    pub tier: u32,
    pub threshold: u32,
    pub limit: u32,
    pub minimum: u32,
}
