// The laws of pages. Each function is there for its contract, a theorem of `specs/`;
// the definitions are those that the contracts of `page` and `store` equate the code with.
#![tactic(auto)]

ghost use Rattle.page_laws.specs.Laws.{Loads, PageForms, Pages, Reached};

#[tactic(auto, using(crate::proofs::Forms::page_forms))]
pub fn page_forms_are_exact()
    ensures { PageForms }
{}

#[tactic(auto, using(crate::proofs::Pages::pages))]
pub fn pages_are_exact()
    ensures { Pages }
{}

#[tactic(auto, using(crate::proofs::Loading::loads))]
pub fn loading_is_accepting()
    ensures { Loads }
{}

#[tactic(auto, using(crate::proofs::Reaching::reached))]
pub fn every_store_has_a_page()
    ensures { Reached }
{}
