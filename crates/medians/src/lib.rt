// The median charge: a layer costs the sum of the distances of its readings to their median.
// Here are the passes over its places.
#![tactic(auto)]

ghost use Rattle.std.specs.Prelude.{◌≡◌, ◌≤◌, true, length, slice_get};
ghost use Rattle.std.specs.List.{AllByRecursion};
ghost use Rattle.readings.specs.Numbers.{number_reading};
ghost use Rattle.medians.specs.Ranks.{rank, in_rank};
ghost use Rattle.medians.specs.Walks.{picked, share, balance};

use place::Place;

pub mod median;
pub mod place;

// How many places at the front hold readings of at most this one.
fn rank_of(places: &[Place], reading: i64) -> usize
    requires order { in_rank places.now ≡ true }
    ensures value { result ≡ rank reading places.now }
{
    places.partition_point(|place| place.reading <= reading)
}

// What the reading with `seen` others before it adds to the balance.
fn share_of(low: usize, high: usize, seen: usize, reading: i64) -> i64
    requires { number_reading reading ≡ true }
    ensures value { result ≡ share low high seen reading }
{
    if seen < low {
        -reading
    } else if high <= seen {
        reading
    } else {
        0
    }
}

// The sum of the upper readings of the segment (s, t) less that of the lower ones.
fn balance_of(places: &[Place], s: usize, t: usize, low: usize, high: usize) -> i64
    requires few { length places.now ≤ 1024 }
    requires numbers { AllByRecursion (λ p. number_reading p.reading ≡ true) places.now }
    ensures value { result ≡ balance low high 0 (picked s t places.now) }
{
    places
        .iter()
        .filter(|place| (s..t).contains(&place.at))
        .enumerate()
        .map(|(seen, place)| share_of(low, high, seen, place.reading))
        .sum()
}

// The reading of the segment (s, t) with `before` others before it in rising order, if there is one. It filters as the balance does,
// written out: a function cannot answer an iterator, whose type has no name.
fn reading_after(places: &[Place], s: usize, t: usize, before: usize) -> Option<i64>
    ensures value { result ≡ slice_get (picked s t places.now) before }
{
    places
        .iter()
        .filter(|place| (s..t).contains(&place.at))
        .map(|place| place.reading)
        .nth(before)
}
