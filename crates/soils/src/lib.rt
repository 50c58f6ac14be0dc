// The soils charge: a layer costs, for each of its readings, how many different symbols occur besides the first.
// Here is what is worked out from a set of symbols.
#![tactic(auto)]

ghost use Rattle.std.specs.Prelude.{◌≡◌, ◌-◌, ◌*◌, ◌≤◌, true};
ghost use Rattle.readings.specs.Symbols.{symbol_reading};
ghost use Rattle.soils.specs.Sets.{single, symbol_of, union};
ghost use Rattle.soils.specs.Unions.{union_assoc, union_comm, union_idem};

use spans::Joining;
use symbols::Symbols;

pub mod soils;
pub mod symbols;

impl Joining for Symbols {
    ghost join = { union };

    ghost assoc = { union_assoc };

    ghost comm = { union_comm };

    ghost idem = { union_idem };

    fn joined(self, other: Symbols) -> Symbols {
        Symbols {
            bits: self.bits | other.bits,
        }
    }
}

// The set of one symbol. It is no From: a number above 31 has none.
fn single_of(reading: i64) -> Symbols
    requires symbol { symbol_reading reading ≡ true }
    ensures value { result ≡ single reading }
    ensures symbol { symbol_of result ≡ reading }
{
    Symbols {
        bits: 1 << reading as u32,
    }
}

// What a layer of so many readings costs in which so many different symbols occur.
fn fee_for(readings: usize, kinds: u32) -> u64
    requires few { readings ≤ 1024 }
    ensures value { result ≡ readings * (kinds - 1) }
{
    readings as u64 * u64::from(kinds.saturating_sub(1))
}
