// The laws of messages in bytes. Each function is there for its contract, a theorem of `specs/`;
// the definitions are those that the contracts of `message` equate the code with.
#![tactic(auto)]

ghost use Rattle.message_laws.specs.Laws.{Letters, Reads, Refusals};

#[tactic(auto, using(crate::proofs::Letters::letters))]
pub fn letters_are_exact()
    ensures { Letters }
{}

#[tactic(auto, using(crate::proofs::Reading::reads))]
pub fn letters_are_read_into_log_and_store()
    ensures { Reads }
{}

#[tactic(auto, using(crate::proofs::Refusing::refusals))]
pub fn refusals_say_what_is_wrong()
    ensures { Refusals }
{}
