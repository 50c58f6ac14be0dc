// The range charge: a layer costs, for each of its readings, how far the lowest and the highest lie apart.
// Here is what is worked out from an extent.
#![tactic(auto)]

ghost use Rattle.std.specs.Prelude.{◌≡◌, ◌*◌, ◌≤◌, true, ◌-ℤ◌, unsigned_abs};
ghost use Rattle.readings.specs.Numbers.{number_reading};
ghost use Rattle.ranges.specs.Ranges.{middle};
ghost use Rattle.ranges.specs.Extents.{hull};
ghost use Rattle.ranges.specs.Hulls.{hull_assoc, hull_comm, hull_idem};

use extent::Extent;
use spans::Joining;

pub mod extent;
pub mod range;

impl Joining for Extent {
    ghost join = { hull };

    ghost assoc = { hull_assoc };

    ghost comm = { hull_comm };

    ghost idem = { hull_idem };

    fn joined(self, other: Extent) -> Extent {
        Extent {
            low: self.low.min(other.low),
            high: self.high.max(other.high),
        }
    }
}

impl Extent {
    // What a layer of so many readings costs that have this extent.
    fn fee(self, readings: usize) -> u64
        requires few { readings ≤ 1024 }
        requires low_number { number_reading self.low ≡ true }
        requires high_number { number_reading self.high ≡ true }
        ensures value { result ≡ readings * unsigned_abs (self.high -ℤ self.low) }
    {
        readings as u64 * self.high.abs_diff(self.low)
    }

    // The middle between lowest and highest, rounded toward zero.
    fn middle(self) -> i64
        requires low_number { number_reading self.low ≡ true }
        requires high_number { number_reading self.high ≡ true }
        ensures value { result ≡ middle self.low self.high }
    {
        (self.low + self.high) / 2
    }
}
