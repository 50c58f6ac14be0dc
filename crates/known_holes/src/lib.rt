// The known holes: the definitions that contracts cite, held to values worked out by hand.
#![tactic(auto)]

ghost use Rattle.known_holes.specs.Table.{Known};

// What is found of every hole of the table is what is expected.
pub fn known_holes_stand()
    ensures { Known }
{}
