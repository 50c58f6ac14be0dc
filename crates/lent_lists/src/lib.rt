// Lists in lent memory: how a charge keeps what it holds without asking for memory of its own.
#![tactic(auto)]

ghost use Rattle.std.specs.Prelude.{◌≡◌, ℕ, ◌+◌, ◌<◌, ◌≤◌, true, false, [], ◌∷◌, ◌++◌, length, take, drop, is_ok};
ghost use Rattle.std.specs.List.{insert};
ghost use Rattle.readings.specs.Makings.{making_told, made_capacity};
ghost use Rattle.lent_lists.specs.Lists.{insert_told};

use charges::Refusal;
use readings::test_making;

// A list in lent memory, of at most `capacity` elements: the first `len` places hold them, in order. What the places beyond
// hold does not matter. It is no Vec: a charge asks for no memory.
#[derive(Drop)]
pub struct LentList<'a, T> {
    places: &'a mut [T],
    len: usize,
    capacity: usize,
    ghost few: { len ≤ capacity },
    ghost small: { capacity ≤ 1024 },
    ghost room: { capacity ≤ length places.now },
}

impl<'a, T: Copy> LentList<'a, T> {
    // Whether a list of this capacity can be made over the places.
    pub fn test(places: &[T], capacity: usize) -> Result<(), Refusal>
        ensures value { result ≡ making_told capacity capacity (length places.now) }
    {
        test_making(capacity, capacity, places.len())
    }

    // A list without elements; from what the test refuses, one of capacity 0. No place is written.
    pub fn new(places: &'a mut [T], capacity: usize) -> LentList<'a, T>
        ensures capacity { result.capacity ≡ made_capacity (making_told capacity capacity (length places.old)) capacity }
        ensures len { result.len ≡ 0 }
        ensures places { result.places.now ≡ places.old }
        ensures lender { result.places.ghost_name ≡ places.entry.ghost_name }
    {
        let capacity = LentList::test(places, capacity).map_or(0, |()| capacity);
        LentList {
            places,
            len: 0,
            capacity,
        }
    }

    // The elements, in order.
    pub fn as_slice(&self) -> &[T]
        ensures elements { result.now ≡ take self.now.len self.now.places.now }
    {
        &self.places[..self.len]
    }

    // How many elements there are.
    pub fn len(&self) -> usize
        ensures value { result ≡ length (take self.now.len self.now.places.now) }
        ensures same { result ≡ self.now.len }
    {
        self.len // how many there are
    }

    // How many elements there can be.
    pub fn capacity(&self) -> usize
        ensures value { result ≡ self.now.capacity }
    {
        self.capacity // how many can be
    }

    // One element more at the end, or a refusal that changes nothing.
    pub fn push(&mut self, element: T) -> Result<(), Refusal>
        ensures answer { result ≡ insert_told self.old.capacity self.old.len self.old.len }
        ensures len { is_ok result ≡ true → self.new.len ≡ self.old.len + 1 }
        ensures elements { is_ok result ≡ true → take (self.old.len + 1) self.new.places.now ≡ take self.old.len self.old.places.now ++ (element ∷ []) }
        ensures beyond { (c : ℕ) → self.old.len < c → drop c self.new.places.now ≡ drop c self.old.places.now }
        ensures length { length self.new.places.now ≡ length self.old.places.now }
        ensures capacity { self.new.capacity ≡ self.old.capacity }
        ensures lender { self.new.places.ghost_name ≡ self.old.places.ghost_name }
        ensures refused { is_ok result ≡ false → self.new ≡ self.old }
    {
        self.insert(self.len, element) // behind all others
    }

    // One element more, before the one at that place or at the end, or a refusal that changes nothing.
    pub fn insert(&mut self, at: usize, element: T) -> Result<(), Refusal>
        ensures answer { result ≡ insert_told self.old.capacity self.old.len at }
        ensures len { is_ok result ≡ true → self.new.len ≡ self.old.len + 1 }
        ensures elements { is_ok result ≡ true → take (self.old.len + 1) self.new.places.now ≡ insert (take self.old.len self.old.places.now) at element }
        ensures beyond { (c : ℕ) → self.old.len < c → drop c self.new.places.now ≡ drop c self.old.places.now }
        ensures length { length self.new.places.now ≡ length self.old.places.now }
        ensures capacity { self.new.capacity ≡ self.old.capacity }
        ensures lender { self.new.places.ghost_name ≡ self.old.places.ghost_name }
        ensures refused { is_ok result ≡ false → self.new ≡ self.old }
    {
        if self.len >= self.capacity {
            return Err(Refusal::Full);
        }
        if at > self.len {
            return Err(Refusal::Outside);
        }
        write_between(self.places, at, self.len, element);
        self.len += 1;
        Ok(())
    }
}

// Writes an element at a place, and moves those from there up to the first `len` one further.
fn write_between<T: Copy>(places: &mut [T], at: usize, len: usize, element: T)
    requires within { at ≤ len }
    requires room { len < length places.old }
    ensures elements { take (len + 1) places.new ≡ insert (take len places.old) at element }
    ensures beyond { (c : ℕ) → len < c → drop c places.new ≡ drop c places.old }
    ensures length { length places.new ≡ length places.old }
{
    places.copy_within(at..len, at + 1);
    places[at] = element;
}
