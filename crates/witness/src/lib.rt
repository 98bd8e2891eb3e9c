// Demand 3 is not empty: an accepted start, and a series from it that meets the two conditions.

#![tactic(auto)]

ghost use Rattle.witness.specs.Witness.{Witness};

// The theorem of demand 3, applied to lists that cross between two windows, and a series with an interrupt, an FCD entry, a store, a stop, a refusal and returns.
pub fn witness()
    ensures { Witness }
{}
