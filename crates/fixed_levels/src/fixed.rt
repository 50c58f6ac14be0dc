// The charge with fixed levels over lent memory, one place for each reading.
ghost use Rattle.std.specs.Prelude.{◌≡◌, ◌<◌, ◌≤◌, true, [], length, take, drop, pos, slice_index_or};
ghost use Rattle.charges.specs.Told.{segment_told};
ghost use Rattle.readings.specs.Numbers.{all_numbers};
ghost use Rattle.readings.specs.Makings.{made_capacity};
ghost use Rattle.lent_lists.specs.Elements.{elements, same_beyond};
ghost use Rattle.level_sets.specs.Sets.{levels_of};
ghost use Rattle.fixed_levels.specs.Fixed.{squared_distance_lem, fixed_level, fixed_levels, fixed_rules, fixed_told, made_levels};
ghost use Rattle.fixed_levels.specs.Sums.{held_in, summed};

use crate::place::Place;
use crate::{Layer, Sums, level_at, squared_distance, tested};
use amounts::Whole;
use charges::levels::LevelCharge;
use charges::{Charge, Refusal};
use lent_lists::LentList;
use level_sets::LevelSet;
use readings::{is_number, test_price, test_segment, test_taking};

// The places keep running sums, so that a fee or a level is a constant number of steps for each level.
// What is alike in the charges over a lent list is a line each: what each call has to say, the list or a test of all charges says.
#[derive(Drop)]
pub struct Fixed<'a> {
    set: LevelSet,
    list: LentList<'a, Place>,
    ghost sums: { summed (elements list) ≡ true },
    ghost numbers: { all_numbers (held_in list.places.now list.len) ≡ true },
}

impl<'a> Fixed<'a> {
    // Whether a charge with these levels and of this capacity can be made over the table. The three are handed over as they are, here
    // and to the making: what they would be together is the charge.
    pub fn test(levels: &[i64], capacity: usize, table: &[Place]) -> Result<(), Refusal>
        ensures value { result ≡ fixed_told levels.now capacity (length table.now) }
    {
        tested(levels, capacity, table.len()).map(|_| ())
    }

    // A charge that holds no reading; from what the test refuses, one of capacity 0 and with the one level 0. No place is
    // written.
    pub fn new(levels: &[i64], capacity: usize, table: &'a mut [Place]) -> Fixed<'a>
        ensures capacity { result.list.capacity ≡ made_capacity (fixed_told levels.now capacity (length table.old)) capacity }
        ensures levels { levels_of result.set ≡ made_levels (fixed_told levels.now capacity (length table.old)) levels.now }
        ensures held { held_in result.list.places.now result.list.len ≡ [] }
        ensures table { result.list.places.now ≡ table.old }
        ensures lender { result.list.places.ghost_name ≡ table.entry.ghost_name }
    {
        let made = tested(levels, capacity, table.len()).map(|set| (set, capacity));
        let (set, capacity) = made.unwrap_or((LevelSet::zero(), 0));
        Fixed {
            set,
            list: LentList::new(table, capacity),
        }
    }

    // The readings held, with their sums.
    fn sums(&self) -> Sums<'_>
        ensures places { result.places.now ≡ elements self.now.list }
    {
        Sums {
            places: self.list.as_slice(),
        }
    }

    // The segment (s, t) of the readings held.
    fn layer(&self, s: usize, t: usize) -> Result<Layer<'_>, Refusal>
        ensures value { result ≡ segment_told (λ u. u) (held_in self.now.list.places.now self.now.list.len) s t }
    {
        test_segment(s, t, self.list.len())?;
        Ok(Layer {
            sums: self.sums(),
            s,
            t,
        })
    }

    // The price of the reading at a place, at a level of the set.
    fn price_of(&self, place: usize, level: usize) -> u64
        requires held { place < self.now.list.len }
        requires offered { level < length (levels_of self.now.set) }
        ensures price { result ≡ squared_distance_lem (slice_index_or (held_in self.now.list.places.now self.now.list.len) place (pos 0)) (slice_index_or (levels_of self.now.set) level (pos 0)) }
    {
        squared_distance(self.sums().reading(place), level_at(&self.set, level))
    }
}

impl<'a> Charge for Fixed<'a> {
    type Cost = Whole;

    ghost rules = { λ c. fixed_rules (levels_of c.set) c.list.capacity };

    ghost leveling = { λ c. fixed_level (levels_of c.set) };

    ghost held = { λ c. held_in c.list.places.now c.list.len };

    // the levels stay, places past those that hold readings are not written, and the memory is the one that was lent
    ghost alike = { λ c d. (levels_of d.set ≡ levels_of c.set) × same_beyond c.list d.list };

    fn take(&mut self, reading: i64) -> Result<(), Refusal> {
        test_taking(self.list.len(), self.list.capacity(), is_number(reading))?;
        let place = self.sums().after(reading);
        self.list.push(place)
    }

    fn fee(&self, s: usize, t: usize) -> Result<Whole, Refusal> {
        Ok(Whole {
            number: self.layer(s, t)?.best(&self.set).cost,
        })
    }

    fn level(&self, s: usize, t: usize) -> Result<i64, Refusal> {
        let best = self.layer(s, t)?.best(&self.set);
        Ok(level_at(&self.set, best.level))
    }

    fn count(&self) -> usize {
        self.list.len() // how many are held
    }

    fn capacity(&self) -> usize {
        self.list.capacity() // how many can be
    }

    fn reading_bound(&self) -> u64 {
        4_000_000_000_000
    }

    fn lawful(&self, reading: i64) -> bool {
        is_number(reading) // and nothing else
    }
}

impl<'a> LevelCharge for Fixed<'a> {
    ghost levels = { λ c. fixed_levels (levels_of c.set) };

    fn count_levels(&self) -> usize {
        self.set.as_slice().len() // how many are offered
    }

    fn price(&self, place: usize, level: usize) -> Result<Whole, Refusal> {
        test_price(place, self.list.len(), level, self.set.as_slice().len())?;
        Ok(Whole {
            number: self.price_of(place, level),
        })
    }
}
