// One place of the table of a charge with fixed levels.

// A reading, and the sums of the readings and of their squares up to and including it. What a place holds before it is
// lent does not matter.
#[derive(Clone, Copy, Default, PartialEq, Eq, Debug)]
pub struct Place {
    pub reading: i64,
    pub sum: i64,
    pub squares: u64,
}
