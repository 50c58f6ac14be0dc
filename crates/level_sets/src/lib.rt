// Level sets: the levels that a charge with fixed levels chooses from.
#![tactic(auto)]

ghost use Rattle.std.specs.Prelude.{◌≡◌, ◌≤◌, true, [], ◌∷◌, length, take, pos, int_lt};
ghost use Rattle.std.specs.Result.{result_map_both};
ghost use Rattle.readings.specs.Numbers.{all_numbers};
ghost use Rattle.level_sets.specs.LevelSets.{rising, level_set_lawful, level_set_told};

use charges::Refusal;
use readings::is_number;

// 1 to 32 strictly rising levels, each a number reading. They are the first `len` of the array: a charge asks for no memory, so
// it is no Vec, and a level set can be copied, as an ArrayVec cannot.
#[derive(Clone, Copy)]
pub struct LevelSet {
    levels: [i64; 32],
    len: usize,
    ghost room: { len ≤ 32 },
    ghost lawful: { level_set_lawful (take len levels) ≡ true },
}

impl LevelSet {
    // The level set of these levels, unless they are none, too many, not strictly rising or out of range.
    pub fn new(levels: &[i64]) -> Result<LevelSet, Refusal>
        ensures value { result_map_both (λ s. take s.len s.levels) (λ e. e) result ≡ level_set_told levels.now }
    {
        if !(1..=32).contains(&levels.len()) {
            return Err(Refusal::LevelSet);
        }
        if !all_rise(levels) || !are_numbers(levels) {
            return Err(Refusal::LevelSet);
        }
        Ok(LevelSet {
            levels: array_of(levels),
            len: levels.len(),
        })
    }

    // The one level 0.
    pub fn zero() -> LevelSet
        ensures value { take result.len result.levels ≡ pos 0 ∷ [] }
    {
        LevelSet {
            levels: [0; 32],
            len: 1,
        }
    }

    // The levels, in rising order.
    pub fn as_slice(&self) -> &[i64]
        ensures value { result.now ≡ take self.now.len self.now.levels }
        ensures lawful { level_set_lawful result.now ≡ true }
    {
        &self.levels[..self.len]
    }
}

// Whether a level is above the one before it. It has a name, so that its clause says what the pass over the levels asks.
fn rises(before: &i64, level: &i64) -> bool
    ensures value { result ≡ int_lt before.now level.now }
{
    before < level
}

// Whether each level is above the one before it.
fn all_rise(levels: &[i64]) -> bool
    ensures value { result ≡ rising levels.now }
{
    levels.is_sorted_by(rises)
}

// Whether each level is a number reading.
fn are_numbers(levels: &[i64]) -> bool
    ensures value { result ≡ all_numbers levels.now }
{
    levels.iter().all(|level| is_number(*level))
}

// The levels at the front of an array.
fn array_of(levels: &[i64]) -> [i64; 32]
    requires few { length levels.now ≤ 32 }
    ensures front { take (length levels.now) result ≡ levels.now }
{
    let mut array = [0; 32];
    array[..levels.len()].copy_from_slice(levels);
    array
}
