// The soils charge over lent memory, a span table of sets of symbols.
ghost use Rattle.std.specs.Prelude.{◌≡◌, ◌<◌, ◌≤◌, true, [], length, count_ones, IfOk, OnOk};
ghost use Rattle.charges.specs.Rules.{segment};
ghost use Rattle.charges.specs.Told.{segment_told};
ghost use Rattle.readings.specs.Makings.{making_told, made_capacity};
ghost use Rattle.spans.specs.Tables.{elements, same_past};
ghost use Rattle.spans.specs.Rows.{cells_for};
ghost use Rattle.soils.specs.Soils.{different, set_of, soils_level, soils_rules};
ghost use Rattle.soils.specs.Sets.{symbols, all_single, held_in};

use crate::symbols::Symbols;
use crate::{fee_for, single_of};
use amounts::Whole;
use charges::{Charge, Refusal};
use readings::{is_symbol, test_taking};
use spans::table::Spans;

// The sets of all spans of the readings held, so that a fee or a level is a constant number of steps.
// One charge over any span table would be no plainer: a trait for what differs from the range charge (lawful readings, the cell of
// one, bound, fee and level of a joined cell, with their laws) is longer than what is the same.
#[derive(Drop)]
pub struct Soils<'a> {
    spans: Spans<'a, Symbols>,
    ghost singles: { all_single (elements spans) ≡ true },
}

impl<'a> Soils<'a> {
    // Whether a soils charge of this capacity can be made over the table: what the span table says of it, by the charge's own name.
    pub fn test(table: &[Symbols], capacity: usize) -> Result<(), Refusal>
        ensures value { result ≡ making_told capacity (cells_for capacity) (length table.now) }
    {
        Spans::test(table, capacity)
    }

    // A charge that holds no reading; from what the test refuses, one of capacity 0. No cell is written.
    pub fn new(table: &'a mut [Symbols], capacity: usize) -> Soils<'a>
        ensures capacity { result.spans.capacity ≡ made_capacity (making_told capacity (cells_for capacity) (length table.old)) capacity }
        ensures held { held_in result.spans.cells.now result.spans.count ≡ [] }
        ensures table { result.spans.cells.now ≡ table.old }
        ensures lender { result.spans.cells.ghost_name ≡ table.entry.ghost_name }
    {
        Soils {
            spans: Spans::new(table, capacity),
        }
    }

    // The symbols that occur in the segment (s, t), from two spans.
    fn found(&self, s: usize, t: usize) -> Result<Symbols, Refusal>
        ensures value { result ≡ segment_told (λ u. symbols (set_of u)) (held_in self.now.spans.cells.now self.now.spans.count) s t }
        ensures count { IfOk result (λ f. count_ones f.bits ≡ different (segment (held_in self.now.spans.cells.now self.now.spans.count) s t)) }
        ensures few { OnOk result ((s < t) × (t ≤ 1024)) }
    {
        self.spans.joined(s, t)
    }
}

impl<'a> Charge for Soils<'a> {
    type Cost = Whole;

    ghost rules = { λ c. soils_rules c.spans.capacity };

    ghost leveling = { λ c. soils_level };

    ghost held = { λ c. held_in c.spans.cells.now c.spans.count };

    // cells past what the capacity needs are never written, and the memory is the one that was lent
    ghost alike = { λ c d. same_past c.spans d.spans };

    #[tactic(auto, using(crate::proofs::Singles::singles_push))]
    fn take(&mut self, reading: i64) -> Result<(), Refusal> {
        test_taking(
            self.spans.count(),
            self.spans.capacity(),
            is_symbol(reading),
        )?;
        self.spans.push(single_of(reading))
    }

    fn fee(&self, s: usize, t: usize) -> Result<Whole, Refusal> {
        let found = self.found(s, t)?;
        Ok(Whole {
            number: fee_for(t - s, found.bits.count_ones()),
        })
    }

    fn level(&self, s: usize, t: usize) -> Result<i64, Refusal> {
        let found = self.found(s, t)?; // to tell the level
        Ok(i64::from(found))
    }

    fn count(&self) -> usize {
        self.spans.count() // how many are held
    }

    fn capacity(&self) -> usize {
        self.spans.capacity() // how many can be
    }

    fn reading_bound(&self) -> u64 {
        31 // all symbols but one
    }

    fn lawful(&self, reading: i64) -> bool {
        is_symbol(reading) // and nothing else
    }
}
