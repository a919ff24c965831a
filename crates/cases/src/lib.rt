// The worked cases, as rows of a table, run on the definitions of the steps.
#![tactic(auto)]

ghost use Rattle.cases.specs.Cases.{Cases};

#[tactic(auto, using(crate::proofs::Worked::cases))]
pub fn cases_come_out()
    ensures { Cases }
{}
