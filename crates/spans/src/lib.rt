// The span table: the joining of any segment of its elements, from two spans that overlap.
// Here are the interface of elements, the table's rows and the steps over them.
#![tactic(auto)]

ghost use Rattle.std.specs.Prelude.{◌≡◌, ℕ, ◌+◌, ◌*◌, ◌^◌, ◌<◌, ◌≤◌, true, false, [], ◌∷◌, ◌++◌, length, take, drop, is_ok, Some, slice_index_or, slice_set};
ghost use Rattle.readings.specs.Makings.{making_told};
ghost use Rattle.spans.specs.Joinings.{joined_told};
ghost use Rattle.spans.specs.Rows.{row_count, cells_for, cell, Built, pushed_cell, ready, push_told, joined_cells_lem, joined_cells_told};

use charges::Refusal;
use readings::{is_capacity, test_making, test_segment};

pub mod table;

// An element that can be joined with others.
pub trait Joining: Copy {
    ghost join: { Self → Self → Self };

    fn joined(self, other: Self) -> Self
        ensures value { result ≡ join self other };

    ghost assoc: { (x y z : Self) → join (join x y) z ≡ join x (join y z) };

    ghost comm: { (x y : Self) → join x y ≡ join y x };

    ghost idem: { (x : Self) → join x x ≡ x };
}

// The row of the longest spans that fit n elements.
fn row_for(n: usize) -> u32
    requires some { 0 < n }
    ensures value { row_count n ≡ result + 1 }
    ensures reached { 2 ^ result ≤ n }
    ensures passed { n < 2 ^ (result + 1) }
    ensures small { result < 64 }
{
    n.ilog2()
}

// 2 to the power of k, by a shift: the library's `pow` multiplies in a loop, and this stands in each row of a push.
fn power(k: u32) -> usize
    requires small { k < 64 }
    ensures value { result ≡ 2 ^ k }
{
    1 << k
}

// Joins two cells, and puts that into a third.
fn fill<T: Joining>(cells: &mut [T], left: usize, right: usize, i: usize)
    requires left { left < length cells.old }
    requires right { right < length cells.old }
    requires inside { i < length cells.old }
    ensures after { (d : T) → cells.new ≡ slice_set cells.old i (T.join (slice_index_or cells.old left d) (slice_index_or cells.old right d)) }
{
    cells[i] = cells[left].joined(cells[right]);
}

// Puts an element behind the first `count`, and works out one span a row: from two of each row, the one of the next.
// Cells and capacity stand apart here and below: a struct over a `&mut` slice for this and one over a `&` slice for the joining
// would each be made by two callers to be opened by one function.
fn push_in<T: Joining>(cells: &mut [T], capacity: usize, count: usize, element: T)
    requires small { capacity ≤ 1024 }
    requires room { cells_for capacity ≤ length cells.old }
    requires free { count < capacity }
    ensures elements { take (count + 1) cells.new ≡ take count cells.old ++ (element ∷ []) }
    ensures cells { (i : ℕ) → cell cells.new i ≡ pushed_cell T.join capacity count cells.old element i }
    ensures beyond { drop (cells_for capacity) cells.new ≡ drop (cells_for capacity) cells.old }
    ensures built { Built T.join capacity count cells.old → Built T.join capacity (count + 1) cells.new }
{
    cells[count] = element;
    // by the rows' numbers: each cell that is written is worked out from two of the row before, in the same slice
    for row in 0..row_for(count + 1) {
        let end = row as usize * capacity + count;
        fill(cells, end - power(row), end, end + capacity);
    }
}

// The span of a row that ends at an element.
fn span_in<T: Joining>(cells: &[T], capacity: usize, row: u32, last: usize) -> T
    requires inside { row * capacity + last < length cells.now }
    ensures value { Some result ≡ cell cells.now (row * capacity + last) }
{
    cells[row as usize * capacity + last]
}

// Joins the span from s on with the one up to t - 1, both as long as fit.
fn joined_in<T: Joining>(cells: &[T], capacity: usize, s: usize, t: usize) -> T
    requires small { capacity ≤ 1024 }
    requires room { cells_for capacity ≤ length cells.now }
    requires some { s < t }
    requires held { t ≤ capacity }
    ensures value { Some result ≡ joined_cells_lem T.join capacity cells.now s t }
    ensures built { (n : ℕ) → Built T.join capacity n cells.now → t ≤ n → Ok result ≡ joined_told T.join (take n cells.now) s t }
{
    let row = row_for(t - s);
    let first = span_in(cells, capacity, row, s + power(row) - 1);
    let last = span_in(cells, capacity, row, t - 1);
    first.joined(last)
}

// Whether there are as many cells as the capacity needs.
fn is_ready<T: Joining>(cells: &[T], capacity: usize) -> bool
    ensures value { result ≡ ready capacity cells.now }
    ensures small { result ≡ true → capacity ≤ 1024 }
    ensures room { result ≡ true → cells_for capacity ≤ length cells.now }
{
    test_table(cells, capacity).is_ok()
}

// Whether a span table of this capacity can be made over the cells. It stood beside the table's own test, which is the same.
pub fn test_table<T: Joining>(cells: &[T], capacity: usize) -> Result<(), Refusal>
    ensures value { result ≡ making_told capacity (cells_for capacity) (length cells.now) }
{
    if !is_capacity(capacity) {
        return Err(Refusal::Capacity);
    }
    let needed = capacity * (row_for(capacity) as usize + 1);
    test_making(capacity, needed, cells.len())
}

// Puts an element behind the first `count`, and works out one span a row. It takes the cells as they are: what they mean,
// their owner knows. It stays public beside the span table for such an owner, as the next does.
pub fn push_cells<T: Joining>(
    cells: &mut [T],
    capacity: usize,
    count: usize,
    element: T,
) -> Result<(), Refusal>
    ensures answer { result ≡ push_told capacity count cells.old }
    ensures length { length cells.new ≡ length cells.old }
    ensures elements { is_ok result ≡ true → take (count + 1) cells.new ≡ take count cells.old ++ (element ∷ []) }
    ensures cells { is_ok result ≡ true → (i : ℕ) → cell cells.new i ≡ pushed_cell T.join capacity count cells.old element i }
    ensures beyond { drop (cells_for capacity) cells.new ≡ drop (cells_for capacity) cells.old }
    ensures refused { is_ok result ≡ false → cells.new ≡ cells.old }
{
    if !is_ready(cells, capacity) || count >= capacity {
        return Err(Refusal::Full);
    }
    push_in(cells, capacity, count, element);
    Ok(())
}

// Joins the span from s on with the one up to t - 1, both as long as fit. It takes the cells as they are.
pub fn joined_cells<T: Joining>(
    cells: &[T],
    capacity: usize,
    s: usize,
    t: usize,
) -> Result<T, Refusal>
    ensures value { result ≡ joined_cells_told T.join capacity cells.now s t }
{
    if !is_ready(cells, capacity) {
        return Err(Refusal::Outside);
    }
    test_segment(s, t, capacity)?;
    Ok(joined_in(cells, capacity, s, t))
}
