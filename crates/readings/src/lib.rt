// What the charges share: which readings are numbers or symbols, and the tests before a charge is made, takes or answers.
#![tactic(auto)]

ghost use Rattle.std.specs.Prelude.{◌≡◌, ◌<◌, ◌≤◌, ◌==◌, ◌||◌, true, not, nat_lt, OnOk};
ghost use Rattle.readings.specs.Numbers.{number_reading};
ghost use Rattle.readings.specs.Symbols.{symbol_reading};
ghost use Rattle.readings.specs.Makings.{making_told};
ghost use Rattle.readings.specs.Tests.{taking_told, asking_told, pricing_told};

use charges::Refusal;

// Whether the reading is a number from -1,000,000 to 1,000,000. That it is one goes on by clauses and not by a type of its own: the
// sums and distances worked out of readings are plain numbers, and each would open that type first.
pub fn is_number(reading: i64) -> bool
    ensures value { result ≡ number_reading reading }
{
    (-1_000_000..=1_000_000).contains(&reading)
}

// Whether the reading is a symbol, from 0 to 31. It stands beside is_number, which differs in the range alone: the two are known by
// these names, and a range to hand over would be no plainer.
pub fn is_symbol(reading: i64) -> bool
    ensures value { result ≡ symbol_reading reading }
{
    (0..=31).contains(&reading)
}

// Whether a charge can have this capacity, from 1 to 1,024.
pub fn is_capacity(capacity: usize) -> bool
    ensures value { result ≡ not (capacity == 0 || nat_lt 1024 capacity) }
{
    (1..=1024).contains(&capacity)
}

// Whether a charge of this capacity can be made, where it needs a table of `needed` places and is lent one of `table`.
pub fn test_making(capacity: usize, needed: usize, table: usize) -> Result<(), Refusal>
    ensures value { result ≡ making_told capacity needed table }
{
    if !is_capacity(capacity) {
        return Err(Refusal::Capacity);
    }
    if table < needed {
        return Err(Refusal::ShortTable);
    }
    Ok(())
}

// Whether a charge takes a reading, where it holds `held` of at most `capacity` and the reading is lawful or not.
pub fn test_taking(held: usize, capacity: usize, lawful: bool) -> Result<(), Refusal>
    ensures value { result ≡ taking_told held capacity lawful }
    ensures free { OnOk result (held < capacity) }
    ensures lawful { OnOk result (lawful ≡ true) }
{
    if held >= capacity {
        return Err(Refusal::Full);
    }
    if !lawful {
        return Err(Refusal::Unlawful);
    }
    Ok(())
}

// Whether (s, t) is a segment of the `held` readings. It answers no segment as a value: that t is not past the readings held is a
// fact about the charge too, and a value of both would borrow the charge.
pub fn test_segment(s: usize, t: usize, held: usize) -> Result<(), Refusal>
    ensures value { result ≡ asking_told s t held }
    ensures some { OnOk result (s < t) }
    ensures within { OnOk result (t ≤ held) }
{
    if s >= t || t > held {
        return Err(Refusal::Outside);
    }
    Ok(())
}

// Whether there is a reading at the place among those held, and a level of that number among those offered.
pub fn test_price(place: usize, held: usize, level: usize, offered: usize) -> Result<(), Refusal>
    ensures value { result ≡ pricing_told place held level offered }
    ensures held { OnOk result (place < held) }
    ensures offered { OnOk result (level < offered) }
{
    if place >= held || level >= offered {
        return Err(Refusal::Outside);
    }
    Ok(())
}
