// The lift: any charge in whole amounts as one in pairs, a fee or price f as (f, 0). It alters nothing else.
#![tactic(auto)]

ghost use Rattle.std.specs.Prelude.{◌≡◌};
ghost use Rattle.lifts.specs.Lifting.{lifted_penalty, lifted_rules, lifted_levels};

use amounts::{Pair, Whole};
use charges::levels::LevelCharge;
use charges::{Charge, Refusal};

// A lifted charge, over the one below.
#[derive(Drop)]
pub struct Lift<C> {
    pub inner: C,
}

// The penalty of a lifted charge: each layer counts.
pub fn lift_penalty(penalty: Whole) -> Pair
    ensures value { result ≡ lifted_penalty penalty }
{
    Pair {
        cost: penalty.number,
        layers: 1,
    }
}

impl<C: Charge<Cost = Whole>> Charge for Lift<C> {
    type Cost = Pair;

    ghost rules = { λ c. lifted_rules (C.rules c.inner) };

    ghost leveling = { λ c. C.leveling c.inner };

    ghost held = { λ c. C.held c.inner };

    ghost alike = { λ c d. C.alike c.inner d.inner };

    fn take(&mut self, reading: i64) -> Result<(), Refusal> {
        self.inner.take(reading)
    }

    fn fee(&self, s: usize, t: usize) -> Result<Pair, Refusal> {
        let fee = self.inner.fee(s, t)?;
        Ok(Pair::from(fee))
    }

    fn level(&self, s: usize, t: usize) -> Result<i64, Refusal> {
        self.inner.level(s, t)
    }

    fn count(&self) -> usize {
        self.inner.count()
    }

    fn capacity(&self) -> usize {
        self.inner.capacity()
    }

    fn reading_bound(&self) -> u64 {
        self.inner.reading_bound()
    }

    fn lawful(&self, reading: i64) -> bool {
        self.inner.lawful(reading)
    }
}

impl<C: LevelCharge + Charge<Cost = Whole>> LevelCharge for Lift<C> {
    ghost levels = { λ c. lifted_levels (C.levels c.inner) };

    fn count_levels(&self) -> usize {
        self.inner.count_levels()
    }

    fn price(&self, place: usize, level: usize) -> Result<Pair, Refusal> {
        let price = self.inner.price(place, level)?;
        Ok(Pair::from(price))
    }
}
