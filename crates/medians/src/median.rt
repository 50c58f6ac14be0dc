// The median charge over lent memory, one place for each reading.
ghost use Rattle.std.specs.Prelude.{◌≡◌, ◌<◌, ◌≤◌, true, [], ◌∷◌, ◌++◌, length, take, drop, Ok};
ghost use Rattle.charges.specs.Rules.{segment};
ghost use Rattle.readings.specs.Numbers.{number_reading, all_numbers};
ghost use Rattle.readings.specs.Makings.{making_told, made_capacity};
ghost use Rattle.lent_lists.specs.Elements.{elements, same_beyond};
ghost use Rattle.medians.specs.Medians.{median, median_fee, median_rules};
ghost use Rattle.medians.specs.Ranks.{held_in, in_rank};

use crate::place::Place;
use crate::{balance_of, rank_of, reading_after};
use amounts::Whole;
use charges::{Charge, Refusal};
use lent_lists::LentList;
use readings::{is_number, test_segment, test_taking};

// The readings held, in rising order, so that a fee or a level is one pass over them.
// What is alike in the charges over a lent list is a line each: what each call has to say, the list or a test of all charges says.
#[derive(Drop)]
pub struct Median<'a> {
    list: LentList<'a, Place>,
    ghost order: { in_rank (elements list) ≡ true },
    ghost numbers: { all_numbers (held_in list.places.now list.len) ≡ true },
}

impl<'a> Median<'a> {
    // Whether a median charge of this capacity can be made over the table: what the list says of it, by the charge's own name.
    pub fn test(table: &[Place], capacity: usize) -> Result<(), Refusal>
        ensures value { result ≡ making_told capacity capacity (length table.now) }
    {
        LentList::test(table, capacity)
    }

    // A charge that holds no reading; from what the test refuses, one of capacity 0. No place is written.
    #[tactic(auto, unfolding(crate::specs::Ranks::ranked_from, crate::specs::Ranks::readings_upto))]
    pub fn new(table: &'a mut [Place], capacity: usize) -> Median<'a>
        ensures capacity { result.list.capacity ≡ made_capacity (making_told capacity capacity (length table.old)) capacity }
        ensures held { held_in result.list.places.now result.list.len ≡ [] }
        ensures table { result.list.places.now ≡ table.old }
        ensures lender { result.list.places.ghost_name ≡ table.entry.ghost_name }
    {
        Median {
            list: LentList::new(table, capacity),
        }
    }

    // Puts in one reading more, the last one of the hole, where it stands in the rising order.
    #[tactic(auto, using(crate::proofs::Charged::put_order, crate::proofs::Charged::put_numbers))]
    fn rank(&mut self, reading: i64)
        requires room { self.old.list.len < self.old.list.capacity }
        requires number { number_reading reading ≡ true }
        ensures capacity { self.new.list.capacity ≡ self.old.list.capacity }
        ensures held { held_in self.new.list.places.now self.new.list.len ≡ held_in self.old.list.places.now self.old.list.len ++ (reading ∷ []) }
        ensures beyond { drop self.new.list.len self.new.list.places.now ≡ drop self.new.list.len self.old.list.places.now }
        ensures lender { self.new.list.places.ghost_name ≡ self.old.list.places.ghost_name }
    {
        let at = self.list.len();
        let rank = rank_of(self.list.as_slice(), reading);
        self.list.insert(rank, Place { reading, at }).unwrap();
    }

    // The sum of the upper half of the readings of the segment (s, t) less that of the lower half: this is the sum of the
    // distances to the median.
    #[tactic(auto, using(crate::proofs::Charged::length_held, crate::proofs::Charged::numbers_held, crate::proofs::Charged::fee_is))]
    fn spread(&self, s: usize, t: usize) -> u64
        requires some { s < t }
        requires within { t ≤ length (held_in self.now.list.places.now self.now.list.len) }
        ensures fee { result ≡ (median_fee (segment (held_in self.now.list.places.now self.now.list.len) s t)).number }
    {
        let half = (t - s) / 2;
        balance_of(self.list.as_slice(), s, t, half, t - s - half).unsigned_abs()
    }
}

#[tactic(auto, using(crate::proofs::Charged::length_held))]
impl<'a> Charge for Median<'a> {
    type Cost = Whole;

    ghost rules = { λ c. median_rules c.list.capacity };

    ghost leveling = { λ c. median };

    ghost held = { λ c. held_in c.list.places.now c.list.len };

    // places past those that hold readings are not written, and the memory is the one that was lent
    ghost alike = { λ c d. same_beyond c.list d.list };

    fn take(&mut self, reading: i64) -> Result<(), Refusal> {
        test_taking(self.list.len(), self.list.capacity(), is_number(reading))?;
        self.rank(reading);
        Ok(())
    }

    fn fee(&self, s: usize, t: usize) -> Result<Whole, Refusal> {
        test_segment(s, t, self.list.len())?;
        Ok(Whole {
            number: self.spread(s, t),
        })
    }

    #[tactic(auto, using(crate::proofs::Charged::length_held, crate::proofs::Charged::level_is))]
    fn level(&self, s: usize, t: usize) -> Result<i64, Refusal> {
        test_segment(s, t, self.list.len())?;
        // the median has half of the others before it, or one less
        let before = (t - s - 1) / 2;
        Ok(reading_after(self.list.as_slice(), s, t, before).unwrap())
    }

    fn count(&self) -> usize {
        self.list.len() // how many are held
    }

    fn capacity(&self) -> usize {
        self.list.capacity() // how many can be
    }

    fn reading_bound(&self) -> u64 {
        2_000_000
    }

    fn lawful(&self, reading: i64) -> bool {
        is_number(reading) // and nothing else
    }
}
