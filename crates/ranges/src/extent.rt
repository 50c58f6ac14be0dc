// One cell of a range charge's table.

// The lowest and the highest of some readings. What a cell holds before it is lent does not matter.
#[derive(Clone, Copy, PartialEq, Eq, Debug)]
pub struct Extent {
    pub low: i64,
    pub high: i64,
}

// The extent of one reading.
impl From<i64> for Extent {
    ghost use Rattle.std.specs.Prelude.{◌≡◌};
    ghost use Rattle.ranges.specs.Extents.{point};

    ghost from_gives = { λ x e. e ≡ point x };

    fn from(reading: i64) -> Extent {
        Extent {
            low: reading,
            high: reading,
        }
    }
}
