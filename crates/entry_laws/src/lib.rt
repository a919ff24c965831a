// The laws of entries in bytes. Each function is there for its contract, a theorem of `specs/`;
// the definitions are those that the contracts of `entry` equate the code with.
#![tactic(auto)]

ghost use Rattle.entry_laws.specs.Laws.{Councils, Entries, Forms};

#[tactic(auto, using(crate::proofs::Shapes::forms))]
pub fn forms_are_exact()
    ensures { Forms }
{}

#[tactic(auto, using(crate::proofs::Entries::entries))]
pub fn entries_are_exact()
    ensures { Entries }
{}

#[tactic(auto, using(crate::proofs::Rising::councils))]
pub fn councils_are_rising_stations()
    ensures { Councils }
{}
