// The laws of requests and their store. Each function is there for its contract, a theorem of `specs/`;
// the definitions are those that the contracts of `store` equate the code with.
#![tactic(auto)]

ghost use Rattle.store_laws.specs.Laws.{OnlyNext, Once, NeverFalls, InTurn, KeepsWord};
ghost use Rattle.store_laws.specs.Reading.{ReadsAs};

pub fn only_the_next_is_done()
    ensures { OnlyNext }
{}

#[tactic(auto, using(crate::proofs::Lists::once))]
pub fn done_once()
    ensures { Once }
{}

#[tactic(auto, using(crate::proofs::Lists::never_falls))]
pub fn lasts_never_fall()
    ensures { NeverFalls }
{}

pub fn done_in_turn()
    ensures { InTurn }
{}

#[tactic(auto, using(crate::proofs::Lists::keeps_word))]
pub fn word_kept_is_word_got()
    ensures { KeepsWord }
{}

#[tactic(auto, using(crate::proofs::Readings::reads_as))]
pub fn tables_read_as_functions()
    ensures { ReadsAs }
{}
