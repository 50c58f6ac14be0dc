// One place of a median charge's table.

// A reading, and its place in the hole. What a place holds before it is lent does not matter.
#[derive(Clone, Copy, PartialEq, Eq, Debug)]
pub struct Place {
    pub reading: i64,
    pub at: usize,
}
