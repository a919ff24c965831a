// What a station keeps besides its log and its stores. These are lent, and a log has more places than entries,
// so `len` and `best` say how many count.
use quorum::Tally;

#[derive(Clone, Copy, PartialEq, Eq, Debug)]
pub struct Head {
    // which station this is, and the council that it is in: its term, its members, how many entries all councils before had
    pub me: u8,
    pub term: u16,
    pub members: u16,
    pub before: u32,
    // it takes no part in lower ballots
    pub promised: u32,
    // the ballot in which its log was last taken, how many entries that has, and how many of them are sure
    pub ballot: u32,
    pub len: u16,
    pub sure: u16,
    // in memory only: the ballot that it asks for, and the one that it leads; 0 for none, as in the rules and the
    // messages: ballots begin at 1, and what was promised and taken begins at 0 too
    pub asking: u32,
    pub leading: u32,
    // in memory only: who promised the ballot asked for, and the best log among the promises, its ballot and its length
    pub heard: u16,
    pub had: u32,
    pub best: u16,
    // in memory only: what each member said it took
    pub tally: Tally,
}
