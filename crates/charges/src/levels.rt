// Level charges: charges that choose between a few levels.
ghost use Rattle.std.specs.Prelude.{◌≡◌};
ghost use Rattle.charges.specs.Levels.{Levels, LevelLaws, price_told};

use crate::{Charge, Refusal};
use amounts::Amount;

// A level charge means, besides, its levels: their number, the value of each, and the price of each lawful reading at each.
pub trait LevelCharge: Charge {
    ghost levels: { Self → Levels Self.Cost };

    // How many levels are offered. It also gives the laws of levels, for every list, and that take leaves the levels alone.
    fn count_levels(&self) -> usize
        ensures value { result ≡ (levels self.now).offered }
        ensures laws { LevelLaws Self.Cost.kind (Self.rules self.now) (Self.leveling self.now) (levels self.now) }
        ensures steady { (later : Self) → Self.alike self.now later → levels later ≡ levels self.now };

    // The price of the reading held at a place, at a level.
    fn price(&self, place: usize, level: usize) -> Result<Self::Cost, Refusal>
        ensures value { result ≡ price_told (levels self.now) (Self.held self.now) place level };
}
