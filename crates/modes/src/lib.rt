// The mode charge: a layer costs as many as its readings differ from their commonest symbol.
// Here is the pass over a segment.
#![tactic(auto)]

ghost use Rattle.std.specs.Prelude.{◌≡◌, ℕ, ◌<◌, true, not, length, pos, nat_le, slice_index};
ghost use Rattle.readings.specs.Symbols.{symbol_reading, all_symbols};
ghost use Rattle.modes.specs.Modes.{occurrences, differing, first_most, commonest};

pub mod mode;

// A symbol, and how many readings differ from it.
#[derive(Clone, Copy)]
struct Commonest {
    symbol: usize,
    others: usize,
}

// The number of a symbol.
fn symbol_of(reading: i64) -> usize
    requires { symbol_reading reading ≡ true }
    ensures value { reading ≡ pos result }
    ensures small { result < 32 }
{
    reading as usize
}

// How often each symbol occurs.
fn tally(readings: &[i64]) -> [usize; 32]
    requires { all_symbols readings.now ≡ true }
    ensures length { length result ≡ 32 }
    ensures counts { (i : ℕ) → i < 32 → slice_index result i ≡ occurrences readings.now i }
{
    let mut counts = [0usize; 32];
    for reading in readings {
        let symbol = symbol_of(*reading);
        counts[symbol] += 1;
    }
    counts
}

// Whether a symbol of this count is commoner than the best so far. It has a name, so that its clause says which stays at a tie.
fn commoner(count: usize, most: usize) -> bool
    ensures value { result ≡ not (nat_le count most) }
{
    count > most
}

// The first symbol of the greatest count. It keeps the best so far: `max_by_key` keeps the last of equals, and a chain that ends in a
// step of our own would need a type for a symbol with its count.
fn first_greatest(counts: &[usize; 32]) -> usize
    ensures value { result ≡ first_most (λ i. slice_index counts.now i) 31 }
    ensures small { result < 32 }
{
    let mut best = 0;
    for (i, count) in counts.iter().enumerate() {
        if commoner(*count, counts[best]) {
            best = i;
        }
    }
    best
}

// The commonest of some symbols.
fn mode_in(readings: &[i64]) -> Commonest
    requires { all_symbols readings.now ≡ true }
    ensures symbol { result.symbol ≡ commonest readings.now }
    ensures small { result.symbol < 32 }
    ensures others { result.others ≡ differing readings.now result.symbol }
{
    let counts = tally(readings);
    let symbol = first_greatest(&counts);
    Commonest {
        symbol,
        others: readings.len() - counts[symbol],
    }
}
