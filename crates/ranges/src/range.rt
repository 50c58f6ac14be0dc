// The range charge over lent memory, a span table of extents.
ghost use Rattle.std.specs.Prelude.{◌≡◌, ◌<◌, ◌≤◌, true, [], length, IfOk, OnOk};
ghost use Rattle.charges.specs.Told.{segment_told};
ghost use Rattle.readings.specs.Numbers.{number_reading};
ghost use Rattle.readings.specs.Makings.{making_told, made_capacity};
ghost use Rattle.spans.specs.Tables.{elements, same_past};
ghost use Rattle.spans.specs.Rows.{cells_for};
ghost use Rattle.ranges.specs.Ranges.{lowest, highest, range_level, range_rules};
ghost use Rattle.ranges.specs.Extents.{extent, all_points, held_in};

use crate::extent::Extent;
use amounts::Whole;
use charges::{Charge, Refusal};
use readings::{is_number, test_taking};
use spans::table::Spans;

// The extents of all spans of the readings held, so that a fee or a level is a constant number of steps.
// One charge over any span table would be no plainer: a trait for what differs from the soils charge (lawful readings, the cell of
// one, bound, fee and level of a joined cell, with their laws) is longer than what is the same.
#[derive(Drop)]
pub struct Range<'a> {
    spans: Spans<'a, Extent>,
    ghost points: { all_points (elements spans) ≡ true },
}

impl<'a> Range<'a> {
    // Whether a range charge of this capacity can be made over the table: what the span table says of it, by the charge's own name.
    pub fn test(table: &[Extent], capacity: usize) -> Result<(), Refusal>
        ensures value { result ≡ making_told capacity (cells_for capacity) (length table.now) }
    {
        Spans::test(table, capacity)
    }

    // A charge that holds no reading; from what the test refuses, one of capacity 0. No cell is written.
    pub fn new(table: &'a mut [Extent], capacity: usize) -> Range<'a>
        ensures capacity { result.spans.capacity ≡ made_capacity (making_told capacity (cells_for capacity) (length table.old)) capacity }
        ensures held { held_in result.spans.cells.now result.spans.count ≡ [] }
        ensures table { result.spans.cells.now ≡ table.old }
        ensures lender { result.spans.cells.ghost_name ≡ table.entry.ghost_name }
    {
        Range {
            spans: Spans::new(table, capacity),
        }
    }

    // The lowest and the highest reading of the segment (s, t), from two spans.
    fn ends(&self, s: usize, t: usize) -> Result<Extent, Refusal>
        ensures value { result ≡ segment_told (λ u. extent (lowest u) (highest u)) (held_in self.now.spans.cells.now self.now.spans.count) s t }
        ensures numbers { IfOk result (λ e. (number_reading e.low ≡ true) × (number_reading e.high ≡ true)) }
        ensures few { OnOk result ((s < t) × (t ≤ 1024)) }
    {
        self.spans.joined(s, t)
    }
}

impl<'a> Charge for Range<'a> {
    type Cost = Whole;

    ghost rules = { λ c. range_rules c.spans.capacity };

    ghost leveling = { λ c. range_level };

    ghost held = { λ c. held_in c.spans.cells.now c.spans.count };

    // cells past what the capacity needs are never written, and the memory is the one that was lent
    ghost alike = { λ c d. same_past c.spans d.spans };

    #[tactic(auto, using(crate::proofs::Extents::points_push))]
    fn take(&mut self, reading: i64) -> Result<(), Refusal> {
        test_taking(
            self.spans.count(),
            self.spans.capacity(),
            is_number(reading),
        )?;
        self.spans.push(Extent::from(reading))
    }

    fn fee(&self, s: usize, t: usize) -> Result<Whole, Refusal> {
        let ends = self.ends(s, t)?;
        Ok(Whole {
            number: ends.fee(t - s),
        })
    }

    fn level(&self, s: usize, t: usize) -> Result<i64, Refusal> {
        let ends = self.ends(s, t)?;
        Ok(ends.middle())
    }

    fn count(&self) -> usize {
        self.spans.count() // how many are held
    }

    fn capacity(&self) -> usize {
        self.spans.capacity() // how many can be
    }

    fn reading_bound(&self) -> u64 {
        2_000_000
    }

    fn lawful(&self, reading: i64) -> bool {
        is_number(reading) // and nothing else
    }
}
