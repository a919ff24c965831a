// Why a step is refused.
ghost use Rattle.steps.specs.Refusal.{number_of};
ghost use Rattle.std.specs.Prelude.{◌≡◌};

#[derive(Clone, Copy, PartialEq, Eq, Debug)]
pub enum Refusal {
    // lent memory that is too short for the head, or for what comes
    Memory,
    // another term than the station's, or a begin of no later one
    OtherTerm,
    // the station is no member of its council
    NoMember,
    // the ballot isn't the station's own, or isn't above what it promised
    NotOwn,
    // the ballot is below what was promised, or not above the log's
    BelowPromise,
    // the station doesn't ask for what it promised, or fewer than most promised it, or their best log drops what is sure
    NotPromised,
    // the station doesn't lead
    NotLeading,
    // the log ends with a close, or has no place for this entry
    LogFull,
    // the part is of a ballot below what was promised, doesn't join the log, or drops what is sure
    NoJoin,
    // fewer than most took that many, or the log has fewer
    NotTaken,
    // the log isn't all sure, doesn't end with a close, or there is no next term
    NotClosed,
    // not the client's last request
    NotLast,
}

// Its number in the table of refusals.
impl From<Refusal> for u8 {
    ghost from_gives = { λ refusal number. number ≡ number_of refusal };

    fn from(refusal: Refusal) -> u8 {
        match refusal {
            Refusal::Memory => 1,
            Refusal::OtherTerm => 3,
            Refusal::NoMember => 4,
            Refusal::NotOwn => 5,
            Refusal::BelowPromise => 6,
            Refusal::NotPromised => 7,
            Refusal::NotLeading => 8,
            Refusal::LogFull => 9,
            Refusal::NoJoin => 10,
            Refusal::NotTaken => 11,
            Refusal::NotClosed => 12,
            Refusal::NotLast => 13,
        }
    }
}
