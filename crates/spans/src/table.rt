// The span table over lent memory, for every element that has a joining.
ghost use Rattle.std.specs.Prelude.{◌≡◌, ℕ, ◌+◌, ◌≤◌, false, [], ◌∷◌, ◌++◌, length, take, drop, is_ok, if◌then◌else◌};
ghost use Rattle.readings.specs.Makings.{making_told, made_capacity};
ghost use Rattle.spans.specs.Joinings.{joined_told};
ghost use Rattle.spans.specs.Rows.{cells_for, cell, Built, Built-prop, pushed_cell, full_told};

use crate::{Joining, joined_in, push_in, test_table};
use charges::Refusal;
use readings::test_segment;

// The lent memory, how many elements it holds and how many it can hold. It is no Vec, since a charge asks for no memory, and no
// lent list, since the cells past the elements hold their spans.
#[derive(Drop)]
pub struct Spans<'a, T: Joining> {
    cells: &'a mut [T],
    count: usize,
    capacity: usize,
    ghost few: { count ≤ capacity },
    ghost small: { capacity ≤ 1024 },
    ghost room: { cells_for capacity ≤ length cells.now },
    ghost built: { Built T.join capacity count cells.now } by { Built-prop T.code T.join capacity count cells.now },
}

impl<'a, T: Joining> Spans<'a, T> {
    // Whether a span table of this capacity can be made over the cells.
    pub fn test(cells: &[T], capacity: usize) -> Result<(), Refusal>
        ensures value { result ≡ making_told capacity (cells_for capacity) (length cells.now) }
    {
        test_table(cells, capacity)
    }

    // A span table without elements; from what the test refuses, one of capacity 0. No cell is written.
    pub fn new(cells: &'a mut [T], capacity: usize) -> Spans<'a, T>
        ensures capacity { result.capacity ≡ made_capacity (making_told capacity (cells_for capacity) (length cells.old)) capacity }
        ensures count { result.count ≡ 0 }
        ensures elements { take result.count result.cells.now ≡ [] }
        ensures cells { result.cells.now ≡ cells.old }
        ensures lender { result.cells.ghost_name ≡ cells.entry.ghost_name }
    {
        let capacity = Spans::test(cells, capacity).map_or(0, |()| capacity);
        Spans {
            cells,
            count: 0,
            capacity,
        }
    }

    // The elements stand in the first cells, and every span that is kept is the joining of its elements.
    pub fn stands(&self)
        ensures built { Built T.join self.now.capacity self.now.count self.now.cells.now }
        ensures held { length (take self.now.count self.now.cells.now) ≡ self.now.count }
    {}

    // One element more, or a refusal that changes nothing.
    pub fn push(&mut self, element: T) -> Result<(), Refusal>
        ensures answer { result ≡ full_told self.old.capacity self.old.count }
        ensures count { self.new.count ≡ (if is_ok result then self.old.count + 1 else self.old.count) }
        ensures elements { take self.new.count self.new.cells.now ≡ (if is_ok result then take self.old.count self.old.cells.now ++ (element ∷ []) else take self.old.count self.old.cells.now) }
        ensures cells { (i : ℕ) → cell self.new.cells.now i ≡ (if is_ok result then pushed_cell T.join self.old.capacity self.old.count self.old.cells.now element i else cell self.old.cells.now i) }
        ensures capacity { self.new.capacity ≡ self.old.capacity }
        ensures beyond { drop (cells_for self.old.capacity) self.new.cells.now ≡ drop (cells_for self.old.capacity) self.old.cells.now }
        ensures refused { is_ok result ≡ false → self.new ≡ self.old }
        ensures lender { self.new.cells.ghost_name ≡ self.old.cells.ghost_name }
    {
        if self.count >= self.capacity {
            return Err(Refusal::Full);
        }
        push_in(self.cells, self.capacity, self.count, element);
        self.count += 1;
        Ok(())
    }

    // The joining of the elements s to t - 1, in order.
    pub fn joined(&self, s: usize, t: usize) -> Result<T, Refusal>
        ensures value { result ≡ joined_told T.join (take self.now.count self.now.cells.now) s t }
    {
        test_segment(s, t, self.count)?;
        Ok(joined_in(self.cells, self.capacity, s, t))
    }

    pub fn count(&self) -> usize
        ensures same { result ≡ self.now.count }
        ensures value { result ≡ length (take self.now.count self.now.cells.now) }
    {
        self.stands();
        self.count // how many there are
    }

    pub fn capacity(&self) -> usize
        ensures value { result ≡ self.now.capacity }
    {
        self.capacity // how many can be
    }
}
