// The theorems of the protocol, over every run of the rules in `specs/`. Each function is there for its contract.
#![tactic(auto)]

ghost use Rattle.council.specs.Promises.{Carried, EachOnce, Grows, KeepsWord, Lively, Main, NextCouncil, OneBallot, Part, SameCouncil, SameWord, TookSent};

// Of what any two stations know, at one moment or at two, one is a beginning of the other.
#[tactic(auto, using(crate::proofs::Theorems::main))]
pub fn there_is_one_past()
    ensures { Main }
{}

// No station goes back on what it knows.
#[tactic(auto, using(crate::proofs::Theorems::grows))]
pub fn knowledge_only_grows()
    ensures { Grows }
{}

// Of two logs of one ballot one is a beginning of the other.
#[tactic(auto, using(crate::proofs::Theorems::one_ballot))]
pub fn one_log_in_a_ballot()
    ensures { OneBallot }
{}

// What a station says that it took of a ballot went out in it.
#[tactic(auto, using(crate::proofs::Theorems::took_sent))]
pub fn what_was_taken_was_sent()
    ensures { TookSent }
{}

// What most members took in a ballot begins whatever goes out in a higher one.
pub fn what_most_took_is_carried_on()
    ensures { Carried }
{}

// Whoever is in a term has the same past and the same members.
#[tactic(auto, using(crate::proofs::Theorems::same_council))]
pub fn one_council_in_a_term()
    ensures { SameCouncil }
{}

// A council is the one that its predecessor's close names, and begins with the log up to it.
#[tactic(auto, using(crate::proofs::Theorems::next_council))]
pub fn councils_follow_closes()
    ensures { NextCouncil }
{}

// Within a term nothing that a station wrote down falls.
#[tactic(auto, using(crate::proofs::Theorems::keeps_word))]
pub fn promises_are_kept()
    ensures { KeepsWord }
{}

// Two stations that answer the same request answer the same.
#[tactic(auto, using(crate::proofs::Theorems::same_word))]
pub fn one_word_for_a_request()
    ensures { SameWord }
{}

// One line, which only grows; each client's requests in turn and once; each word from its place.
#[tactic(auto, using(crate::proofs::Theorems::each_once))]
pub fn each_request_once()
    ensures { EachOnce }
{}

// A part of a log that joins is read as the whole log.
#[tactic(auto, using(crate::proofs::Theorems::part))]
pub fn parts_are_read_as_wholes()
    ensures { Part }
{}

// Most members of a council can by themselves bring an entry in, or it to its close.
pub fn nobody_is_stuck()
    ensures { Lively }
{}
