// The theorems of the steps: each is a step of the rules, so all stations stand on one line. Each function is there for its contract.
#![tactic(auto)]

ghost use Rattle.steps_laws.specs.Laws.{AnswersAtPlace, Keeps, LineGrows, OneLine, OneWord, Refines};
ghost use Rattle.steps_laws.specs.Shown.{Shown};

// Each step keeps a view in order, what was promised and what is sure, whatever letter comes.
#[tactic(auto, using(crate::proofs::Keep::keeps))]
pub fn what_is_sure_stays()
    ensures { Keeps }
{}

// Each step is a step of the rules, or nothing that they see.
#[tactic(auto, using(crate::proofs::Lines::refines))]
pub fn steps_follow_the_rules()
    ensures { Refines }
{}

// All stations stand on one line.
#[tactic(auto, using(crate::proofs::Lines::one_line))]
pub fn all_stand_on_one_line()
    ensures { OneLine }
{}

// The line only grows, and nobody goes back on it.
#[tactic(auto, using(crate::proofs::Lines::line_grows))]
pub fn the_line_only_grows()
    ensures { LineGrows }
{}

// A word that a station answers is the one that the request got at its place.
#[tactic(auto, using(crate::proofs::Lines::answers_at_place))]
pub fn answers_come_from_the_line()
    ensures { AnswersAtPlace }
{}

// Two stations that answer the same request answer the same.
#[tactic(auto, using(crate::proofs::Lines::one_word))]
pub fn one_word_for_an_answer()
    ensures { OneWord }
{}

// What a call on lent memory gives and leaves is what the step on its view does.
pub fn memory_shows_the_station()
    ensures { Shown }
{}
