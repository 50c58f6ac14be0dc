// Amounts: what fees, penalties and totals are. The interface with its laws, and the two kinds.
#![tactic(auto)]

ghost use Rattle.std.specs.Prelude.{◌≡◌, ◌+◌, ◌^◌, ◌≤◌};
ghost use Rattle.amounts.specs.Kind.{Kind, Laws};
ghost use Rattle.amounts.specs.Kinds.{pair, whole_kind, pair_kind};
ghost use Rattle.amounts.specs.Lawful.{whole_laws, pair_laws};

// A kind of amounts. What a value means is the amount `kind` speaks of, which has no upper limit.
pub trait Amount: Copy {
    ghost kind: { Kind Self };

    fn nothing() -> Self
        ensures value { result ≡ kind.nothing };

    // Exact where the two weights add up to at most 2^62; a heavier sum is some amount.
    fn plus(self, other: Self) -> Self
        ensures exact { kind.weight self + kind.weight other ≤ 2 ^ 62 → result ≡ kind.plus self other };

    fn at_most(self, other: Self) -> bool
        ensures value { result ≡ kind.at_most self other };

    fn weight(self) -> u64
        ensures value { result ≡ kind.weight self };

    fn words(self) -> (u64, u64)
        ensures value { result ≡ kind.words self };

    fn from_words(first: u64, second: u64) -> Self
        ensures value { result ≡ kind.of_words (first, second) };

    ghost lawful: { Laws kind };
}

// A whole amount: a whole number from 0.
#[derive(Clone, Copy, PartialEq, Eq, PartialOrd, Ord, Debug)]
pub struct Whole {
    pub number: u64,
}

impl Amount for Whole {
    ghost kind = { whole_kind };

    ghost lawful = { whole_laws };

    fn nothing() -> Whole {
        Whole { number: 0 }
    }

    fn plus(self, other: Whole) -> Whole {
        Whole {
            number: self.number.saturating_add(other.number),
        }
    }

    fn at_most(self, other: Whole) -> bool {
        self <= other // by the number
    }

    fn weight(self) -> u64 {
        self.number // its own weight
    }

    fn words(self) -> (u64, u64) {
        (self.number, 0)
    }

    fn from_words(first: u64, _second: u64) -> Whole {
        Whole { number: first }
    }
}

// A pair amount: a cost, and how many layers it is paid for.
#[derive(Clone, Copy, PartialEq, Eq, PartialOrd, Ord, Debug)]
pub struct Pair {
    pub cost: u64,
    pub layers: u64,
}

impl Amount for Pair {
    ghost kind = { pair_kind };

    ghost lawful = { pair_laws };

    fn nothing() -> Pair {
        Pair { cost: 0, layers: 0 }
    }

    fn plus(self, other: Pair) -> Pair {
        Pair {
            cost: self.cost.saturating_add(other.cost),
            layers: self.layers.saturating_add(other.layers),
        }
    }

    fn at_most(self, other: Pair) -> bool {
        self <= other // by the cost, and then by the layers
    }

    fn weight(self) -> u64 {
        self.cost.max(self.layers)
    }

    fn words(self) -> (u64, u64) {
        (self.cost, self.layers)
    }

    fn from_words(first: u64, second: u64) -> Pair {
        Pair {
            cost: first,
            layers: second,
        }
    }
}

// A whole amount as a pair: a cost that is paid for no layer.
impl From<Whole> for Pair {
    ghost from_gives = { λ w p. p ≡ pair w.number 0 };

    fn from(whole: Whole) -> Pair {
        Pair {
            cost: whole.number,
            layers: 0,
        }
    }
}
