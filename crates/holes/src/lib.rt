// One hole under a charge: the laws of the charge as laws of the hole's places.
#![tactic(auto)]

ghost use Rattle.std.specs.Prelude.{◌≡◌, ◌≤◌, true, List, length, ℤ};
ghost use Rattle.charges.specs.Rules.{Rules, ChargeLaws, all_lawful};
ghost use Rattle.charges.specs.Levels.{Levels, LevelLaws};
ghost use Rattle.holes.specs.Laws.{HoleLaws, HoleLevelLaws, Grows};

use amounts::Amount;

// The laws of a charge hold of the places of every hole of at most 1,024 lawful readings.
pub fn hole_laws_stand<V: Amount>()
    ensures fees { (r : Rules V) (h : List ℤ) → ChargeLaws V.kind r → all_lawful r h ≡ true → length h ≤ 1024 → HoleLaws V.kind r h }
    ensures levels { (r : Rules V) (leveling : List ℤ → ℤ) (l : Levels V) (h : List ℤ) → LevelLaws V.kind r leveling l → all_lawful r h ≡ true → HoleLevelLaws V.kind r h l }
    ensures grows { (r : Rules V) (l : Levels V) (h more : List ℤ) → Grows r l h more }
{}
