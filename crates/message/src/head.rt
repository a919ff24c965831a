// What stands in a message besides its entries and its page: the fields of each kind, as its format lists them.
#[derive(Clone, Copy, PartialEq, Eq, Debug)]
pub enum Message {
    // a station asks to lead a ballot
    Ask {
        term: u16,
        ballot: u32,
    },
    // a station promises a ballot, and sends its log of `count` entries and that log's ballot
    Promise {
        term: u16,
        ballot: u32,
        from: u8,
        had: u32,
        count: u16,
    },
    // `count` entries of a ballot's log, from a place on
    Part {
        term: u16,
        ballot: u32,
        place: u16,
        count: u16,
    },
    // a station took that many entries in a ballot
    Took {
        term: u16,
        ballot: u32,
        from: u8,
        count: u16,
    },
    // a council begins: its members, and how many entries all councils before had
    Begin {
        term: u16,
        members: u16,
        before: u32,
    },
}
