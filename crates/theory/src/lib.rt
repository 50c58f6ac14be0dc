// The theory of layerings: each function's contract states a theorem, proved once for every kind of amounts.
#![tactic(auto)]

ghost use Rattle.std.specs.Prelude.{ℕ, List};
ghost use Rattle.theory.specs.Layerings.{Layering};
ghost use Rattle.theory.specs.Keeping.{KeepingTest, plain_keeps};
ghost use Rattle.theory.specs.Pruned.{Splits, pruned_keeps};
ghost use Rattle.theory.specs.Levels.{Leveled, level_keeps};
ghost use Rattle.theory.specs.Weights.{FeesWeigh, TotalsWeigh, Limits, Exact};
ghost use Rattle.theory.specs.Theorems.{Recursion, Optimal, Ties, Smoothed};
ghost use Rattle.theory.specs.TheoremsOfSearches.{Sound, Pruning, Holding, LevelSearch, Tallied, PlainTallied};
ghost use Rattle.theory.specs.TheoremsOfGrowth.{FeesAlike, PricesAlike, Unchanged, LevelsUnchanged};

use amounts::Amount;

// Totals, breaks and the layerings given obey their recursion.
pub fn recursion_stands<V: Amount>()
    ensures { (fee : ℕ → ℕ → V) (penalty : V) → Recursion V.kind fee penalty }
{}

// The layering given costs exactly the total, and no layering costs less.
pub fn optimal_stands<V: Amount>()
    ensures { (fee : ℕ → ℕ → V) (penalty : V) → Optimal V.kind fee penalty }
{}

// Of the layerings of least cost the given one has the deepest breaks, counted from the last.
pub fn ties_stand<V: Amount>()
    ensures { (fee : ℕ → ℕ → V) (penalty : V) → Ties V.kind fee penalty }
{}

// The plain search, which keeps every break, is sound.
pub fn plain_stands<V: Amount>()
    ensures { (fee : ℕ → ℕ → V) (penalty : V) (N : ℕ) → Sound V.kind fee penalty plain_keeps N }
{}

// What the pruned search keeps; under the splitting law it is sound.
pub fn pruned_stands<V: Amount>()
    ensures kept { (fee : ℕ → ℕ → V) (penalty : V) → Pruning V.kind fee penalty }
    ensures sound { (fee : ℕ → ℕ → V) (penalty : V) (N : ℕ) → Splits V.kind fee N → Sound V.kind fee penalty (pruned_keeps V.kind fee penalty) N }
{}

// What the levels hold; under the level law they give total and back, and the level search is sound.
pub fn levels_stand<V: Amount>()
    ensures held { (fee : ℕ → ℕ → V) (penalty : V) (price : ℕ → ℕ → V) (k : ℕ) → Holding V.kind fee penalty price k }
    ensures search { (fee : ℕ → ℕ → V) (penalty : V) (price : ℕ → ℕ → V) (k N : ℕ) → Leveled V.kind fee price k N → LevelSearch V.kind fee penalty price k N }
    ensures sound { (fee : ℕ → ℕ → V) (penalty : V) (price : ℕ → ℕ → V) (k N : ℕ) → Leveled V.kind fee price k N → Sound V.kind fee penalty (level_keeps V.kind fee penalty price k) N }
{}

// What is told of the first N readings does not change as readings are added.
pub fn growth_stands<V: Amount>()
    ensures told { (penalty : V) (f g : ℕ → ℕ → V) (N : ℕ) → FeesAlike f g N → Unchanged V.kind penalty f g N }
    ensures levels { (penalty : V) (f g p q : ℕ → ℕ → V) (k N : ℕ) → FeesAlike f g N → PricesAlike p q k N → LevelsUnchanged V.kind penalty f g p q k N }
{}

// What the tallies count.
pub fn tallies_stand()
    ensures any { (keep : KeepingTest) → Tallied keep }
    ensures plain { PlainTallied }
{}

// Every reading of a layering gets the level of its layer.
pub fn smooth_stands<L>()
    ensures { (level : ℕ → ℕ → L) (j : ℕ) (ps : List ℕ) → Layering j ps → Smoothed level j ps }
{}

// Totals stay so light that every addition of a search is exact.
pub fn weights_stand<V: Amount>()
    ensures totals { (fee : ℕ → ℕ → V) (penalty : V) (bound N : ℕ) → FeesWeigh V.kind fee bound N → TotalsWeigh V.kind fee penalty bound N }
    ensures exact { (fee : ℕ → ℕ → V) (penalty : V) (price : ℕ → ℕ → V) (k bound N : ℕ) → Limits V.kind fee penalty price k bound N → Exact V.kind fee penalty price k N }
{}
