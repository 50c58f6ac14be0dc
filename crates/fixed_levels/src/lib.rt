// The charge with fixed levels: a layer costs the sum of the squared distances of its readings to the best of a few levels.
// Here are the running sums, the best level of a layer and the test before making.
#![tactic(auto)]

ghost use Rattle.std.specs.Prelude.{◌≡◌, ◌+◌, ◌-◌, ◌*◌, ◌<◌, ◌≤◌, true, List, [], ◌∷◌, ◌++◌, length, take, ℤ, pos, ◌-ℤ◌, ◌*ℤ◌, ◌≤ℤ◌, Ok, Err, MatchResult, OnOk, nat_lt, cond, slice_index_or, unsigned_abs};
ghost use Rattle.charges.specs.Rules.{segment};
ghost use Rattle.readings.specs.Numbers.{number_reading, all_numbers};
ghost use Rattle.level_sets.specs.Sets.{levels_of};
ghost use Rattle.fixed_levels.specs.Fixed.{square, squared_distance_lem, best, fixed_fee, fixed_told};
ghost use Rattle.fixed_levels.specs.Sums.{sum_of, squares_of, squares_about, readings_of, summed};

use charges::Refusal;
use level_sets::LevelSet;
use place::Place;
use readings::{is_capacity, test_making};
use std::marker::Model;

pub mod fixed;
pub mod place;

// At most 1,024 readings, each with the sums up to it.
#[derive(Clone, Copy)]
struct Sums<'a> {
    places: &'a [Place],
    ghost few: { length places.now ≤ 1024 },
    ghost sums: { summed places.now ≡ true },
    ghost numbers: { all_numbers (readings_of places.now) ≡ true },
}

impl<'a> Sums<'a> {
    // The sums of the readings before a place, in a place of no reading of its own.
    fn before(&self, at: usize) -> Place
        requires within { at ≤ length self.now.places.now }
        ensures sum { result.sum ≡ sum_of (take at (readings_of self.now.places.now)) }
        ensures squares { result.squares ≡ squares_of (take at (readings_of self.now.places.now)) }
    {
        self.places[..at].last().copied().unwrap_or_default()
    }

    // The place of one reading more.
    fn after(&self, reading: i64) -> Place
        requires room { length self.now.places.now < 1024 }
        requires number { number_reading reading ≡ true }
        ensures readings { readings_of (self.now.places.now ++ (result ∷ [])) ≡ readings_of self.now.places.now ++ (reading ∷ []) }
        ensures sums { summed (self.now.places.now ++ (result ∷ [])) ≡ true }
        ensures numbers { all_numbers (readings_of (self.now.places.now ++ (result ∷ []))) ≡ true }
    {
        let before = self.before(self.places.len());
        Place {
            reading,
            sum: before.sum + reading,
            squares: before.squares + square_of(reading),
        }
    }

    // The reading at a place.
    fn reading(&self, place: usize) -> i64
        requires within { place < length self.now.places.now }
        ensures value { result ≡ slice_index_or (readings_of self.now.places.now) place (pos 0) }
        ensures number { number_reading result ≡ true }
    {
        self.places[place].reading
    }
}

// The segment (s, t) of the readings. In a contract it is the list of the readings from s to t - 1.
#[derive(Drop)]
struct Layer<'a> {
    sums: Sums<'a>,
    s: usize,
    t: usize,
}

impl<'a> Model for Layer<'a> {
    ghost Value = { List ℤ };

    ghost view = { λ l. segment (readings_of l.sums.places.now) l.s l.t };

    ghost invariant = { λ l. (l.s < l.t) × (l.t ≤ length l.sums.places.now) };
}

impl<'a> Layer<'a> {
    // The totals of its readings.
    fn totals(&self) -> Totals
        ensures count { result.count ≡ length self.now }
        ensures sum { result.sum ≡ sum_of self.now }
        ensures squares { result.squares ≡ squares_of self.now }
    {
        let before = self.sums.before(self.s);
        let all = self.sums.before(self.t);
        Totals {
            count: self.t - self.s,
            sum: all.sum - before.sum,
            squares: all.squares - before.squares,
        }
    }

    // The sum of squared distances to a level.
    fn cost(&self, level: i64) -> u64
        requires number { number_reading level ≡ true }
        ensures value { result ≡ squares_about level self.now }
    {
        self.totals().spread(level)
    }

    // The best level of the set, and what this layer costs there.
    fn best(&self, set: &LevelSet) -> Choice
        ensures level { result.level ≡ best (levels_of set.now) self.now }
        ensures offered { result.level < length (levels_of set.now) }
        ensures cost { result.cost ≡ (fixed_fee (levels_of set.now) self.now).number }
    {
        set.as_slice()
            .iter()
            .enumerate()
            .map(|(level, value)| Choice {
                level,
                cost: self.cost(*value),
            })
            .reduce(Choice::or_cheaper)
            .unwrap()
    }
}

// How many readings there are, their sum and the sum of their squares.
#[derive(Clone, Copy)]
struct Totals {
    count: usize,
    sum: i64,
    squares: u64,
    ghost few: { count ≤ 1024 },
    ghost sum_small: { unsigned_abs sum ≤ count * 1000000 },
    ghost squares_small: { squares ≤ count * 1000000000000 },
}

impl Totals {
    // The sum of squared distances of these readings to a level.
    fn spread(self, level: i64) -> u64
        requires number { number_reading level ≡ true }
        requires whole { (pos 2 *ℤ (level *ℤ self.sum)) ≤ℤ pos (self.squares + self.count * square level) }
        ensures value { pos result ≡ pos (self.squares + self.count * square level) -ℤ pos 2 *ℤ (level *ℤ self.sum) }
    {
        let above = self.squares + self.count as u64 * square_of(level);
        (above as i64 - 2 * (level * self.sum)) as u64
    }
}

// A level, by its number, and what a layer costs there.
#[derive(Clone, Copy)]
struct Choice {
    level: usize,
    cost: u64,
}

impl Choice {
    // The cheaper of the two: at a tie this one. It is written out, in one clause that says which stays at a tie; by `min_by_key` over
    // the levels the proof is left open.
    fn or_cheaper(self, other: Choice) -> Choice
        ensures value { result ≡ cond (nat_lt other.cost self.cost) other self }
    {
        if other.cost < self.cost { other } else { self }
    }
}

// The level of that number.
fn level_at(set: &LevelSet, level: usize) -> i64
    requires offered { level < length (levels_of set.now) }
    ensures value { result ≡ slice_index_or (levels_of set.now) level (pos 0) }
    ensures number { number_reading result ≡ true }
{
    set.as_slice()[level]
}

// The level set of a charge that can be made of these levels, this capacity and a table of so many places.
fn tested(levels: &[i64], capacity: usize, table: usize) -> Result<LevelSet, Refusal>
    ensures value { MatchResult result (λ s. (fixed_told levels.now capacity table ≡ Ok tt) × (levels_of s ≡ levels.now)) (λ e. fixed_told levels.now capacity table ≡ Err e) }
    ensures room { OnOk result ((capacity ≤ 1024) × (capacity ≤ table)) }
{
    if !is_capacity(capacity) {
        return Err(Refusal::Capacity);
    }
    let set = LevelSet::new(levels)?;
    test_making(capacity, capacity, table)?;
    Ok(set)
}

// The square of a number no larger than the distance of two readings.
fn square_of(x: i64) -> u64
    requires { unsigned_abs x ≤ 2000000 }
    ensures value { result ≡ square x }
{
    let size = x.unsigned_abs();
    size * size
}

// How far a reading lies from a level, times itself.
fn squared_distance(reading: i64, level: i64) -> u64
    requires { (number_reading reading ≡ true) × (number_reading level ≡ true) }
    ensures value { result ≡ squared_distance_lem reading level }
{
    square_of(reading - level)
}
