// Why a request is refused.
ghost use Rattle.store.specs.Refusal.{number_of};
ghost use Rattle.std.specs.Prelude.{◌≡◌};

#[derive(Clone, Copy, PartialEq, Eq, Debug)]
pub enum Refusal {
    // the lent slices aren't 1,024 shelves and 256 clients
    Tables,
    // there is no shelf of that key
    Key,
    // it isn't the client's next request
    NotNext,
}

// Its number in the table of refusals.
impl From<Refusal> for u8 {
    ghost from_gives = { λ refusal number. number ≡ number_of refusal };

    fn from(refusal: Refusal) -> u8 {
        match refusal {
            Refusal::Tables => 1,
            Refusal::Key => 2,
            Refusal::NotNext => 13,
        }
    }
}
