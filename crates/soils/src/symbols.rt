// One cell of a soils charge's table.

// A set of symbols: digit k of the number says whether symbol k is in it. What a cell holds before it is lent does not matter.
#[derive(Clone, Copy, PartialEq, Eq, Debug)]
pub struct Symbols {
    pub bits: u32,
}

// The set written as a number.
impl From<Symbols> for i64 {
    ghost use Rattle.std.specs.Prelude.{◌≡◌, pos};

    ghost from_gives = { λ found n. n ≡ pos found.bits };

    fn from(found: Symbols) -> i64 {
        i64::from(found.bits)
    }
}
