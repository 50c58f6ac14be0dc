// Charges: what a charge is, not which there are. The interface, its laws and the refusals.
#![tactic(auto)]

ghost use Rattle.std.specs.Prelude.{◌≡◌, false, List, length, ℤ, is_ok};
ghost use Rattle.charges.specs.Refusals.{refusal_number};
ghost use Rattle.charges.specs.Rules.{Rules, ChargeLaws, Held};
ghost use Rattle.charges.specs.Told.{take_told, after_take, segment_told};

use amounts::Amount;

pub mod levels;

// Why a call says no, by its number. A refused call changes nothing.
#[derive(Clone, Copy, PartialEq, Eq, Debug)]
pub enum Refusal {
    // something new over lent memory: the capacity is 0 or above 1,024
    Capacity = 1,
    // a new charge: the level set is empty, longer than 32, not strictly rising or out of range
    LevelSet = 2,
    // something new over lent memory: the table is shorter than the capacity needs
    ShortTable = 3,
    // the capacity is reached
    Full = 6,
    // the reading is not lawful
    Unlawful = 7,
    // the segment is not one of the readings held, the place is not below their number (for an insert: is past the end), or the
    // level is not offered
    Outside = 9,
}

impl Refusal {
    // The number that it is told by.
    pub fn number(self) -> u8
        ensures value { result ≡ refusal_number self }
    {
        self as u8
    }
}

// A charge holds readings, and says what a segment of them costs as one layer.
// It means its rules, its level rule and the list of readings held.
pub trait Charge {
    type Cost: Amount;

    ghost rules: { Self → Rules Self.Cost };

    // the level rule: the signed number that stands for a layer of these readings
    ghost leveling: { Self → List ℤ → ℤ };

    ghost held: { Self → List ℤ };

    // Two states of one charge: by this an interface that builds on this one says what else `take` leaves alone.
    ghost alike: { Self → Self → Type 0 };

    // One reading more, or a refusal that changes nothing at all. Nothing else ever changes a charge.
    fn take(&mut self, reading: i64) -> Result<(), Refusal>
        ensures answer { result ≡ take_told (rules self.old) (held self.old) reading }
        ensures held { held self.new ≡ after_take (rules self.old) (held self.old) reading }
        ensures rules { rules self.new ≡ rules self.old }
        ensures leveling { leveling self.new ≡ leveling self.old }
        ensures alike { alike self.old self.new }
        ensures refused { is_ok result ≡ false → self.new ≡ self.old };

    // What the segment (s, t) costs as one layer.
    fn fee(&self, s: usize, t: usize) -> Result<Self::Cost, Refusal>
        ensures value { result ≡ segment_told (rules self.now).fee (held self.now) s t };

    // The number that stands for the segment (s, t) as one layer.
    fn level(&self, s: usize, t: usize) -> Result<i64, Refusal>
        ensures value { result ≡ segment_told (leveling self.now) (held self.now) s t };

    // How many readings are held. It also gives the laws: those of the rules, for every list, and those of the list held.
    fn count(&self) -> usize
        ensures value { result ≡ length (held self.now) }
        ensures laws { ChargeLaws Self.Cost.kind (rules self.now) }
        ensures held { Held (rules self.now) (held self.now) };

    fn capacity(&self) -> usize
        ensures value { result ≡ (rules self.now).capacity };

    fn reading_bound(&self) -> u64
        ensures value { result ≡ (rules self.now).bound };

    fn lawful(&self, reading: i64) -> bool
        ensures value { result ≡ (rules self.now).lawful reading };
}
