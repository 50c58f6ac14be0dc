// The mode charge over lent memory, one place for each reading.
ghost use Rattle.std.specs.Prelude.{◌≡◌, ◌<◌, true, [], length, IfOk};
ghost use Rattle.charges.specs.Told.{segment_told};
ghost use Rattle.readings.specs.Symbols.{all_symbols};
ghost use Rattle.readings.specs.Makings.{making_told, made_capacity};
ghost use Rattle.lent_lists.specs.Elements.{elements, same_beyond};
ghost use Rattle.modes.specs.Modes.{commonest, differing, mode as commonest_symbol, mode_rules, mode_levels};

use crate::{Commonest, mode_in};
use amounts::Whole;
use charges::levels::LevelCharge;
use charges::{Charge, Refusal};
use lent_lists::LentList;
use readings::{is_symbol, test_price, test_segment, test_taking};

// The readings held, in the order of the hole.
// What is alike in the charges over a lent list is a line each: what each call has to say, the list or a test of all charges says.
#[derive(Drop)]
pub struct Mode<'a> {
    list: LentList<'a, i64>,
    ghost symbols: { all_symbols (elements list) ≡ true },
}

impl<'a> Mode<'a> {
    // Whether a mode charge of this capacity can be made over the table: what the list says of it, by the charge's own name.
    pub fn test(table: &[i64], capacity: usize) -> Result<(), Refusal>
        ensures value { result ≡ making_told capacity capacity (length table.now) }
    {
        LentList::test(table, capacity)
    }

    // A charge that holds no reading; from what the test refuses, one of capacity 0. No place is written.
    pub fn new(table: &'a mut [i64], capacity: usize) -> Mode<'a>
        ensures capacity { result.list.capacity ≡ made_capacity (making_told capacity capacity (length table.old)) capacity }
        ensures held { elements result.list ≡ [] }
        ensures table { result.list.places.now ≡ table.old }
        ensures lender { result.list.places.ghost_name ≡ table.entry.ghost_name }
    {
        Mode {
            list: LentList::new(table, capacity),
        }
    }

    // The commonest symbol of the segment (s, t), and how many of its readings differ from it.
    fn mode_of(&self, s: usize, t: usize) -> Result<Commonest, Refusal>
        ensures value { result ≡ segment_told (λ u. record { symbol = commonest u; others = differing u (commonest u) }) (elements self.now.list) s t }
        ensures small { IfOk result (λ m. m.symbol < 32) }
    {
        test_segment(s, t, self.list.len())?;
        Ok(mode_in(&self.list.as_slice()[s..t]))
    }
}

impl<'a> Charge for Mode<'a> {
    type Cost = Whole;

    ghost rules = { λ c. mode_rules c.list.capacity };

    ghost leveling = { λ c. commonest_symbol };

    ghost held = { λ c. elements c.list };

    // places past those that hold readings are not written, and the memory is the one that was lent
    ghost alike = { λ c d. same_beyond c.list d.list };

    fn take(&mut self, reading: i64) -> Result<(), Refusal> {
        test_taking(self.list.len(), self.list.capacity(), is_symbol(reading))?;
        self.list.push(reading)
    }

    fn fee(&self, s: usize, t: usize) -> Result<Whole, Refusal> {
        let mode = self.mode_of(s, t)?;
        Ok(Whole {
            number: mode.others as u64,
        })
    }

    fn level(&self, s: usize, t: usize) -> Result<i64, Refusal> {
        let commonest = self.mode_of(s, t)?;
        Ok(commonest.symbol as i64)
    }

    fn count(&self) -> usize {
        self.list.len() // how many are held
    }

    fn capacity(&self) -> usize {
        self.list.capacity() // how many can be
    }

    fn reading_bound(&self) -> u64 {
        1 // a reading differs or not
    }

    fn lawful(&self, reading: i64) -> bool {
        is_symbol(reading) // and nothing else
    }
}

impl<'a> LevelCharge for Mode<'a> {
    ghost levels = { λ _. mode_levels };

    fn count_levels(&self) -> usize {
        32 // each symbol
    }

    fn price(&self, place: usize, level: usize) -> Result<Whole, Refusal> {
        test_price(place, self.list.len(), level, self.count_levels())?;
        let same = self.list.as_slice()[place] == level as i64;
        Ok(Whole {
            number: u64::from(!same),
        })
    }
}
