use store::Request;

// An entry of a log: a client's request, or the close of a council that names the members of the next,
// as a set of bits.
#[derive(Clone, Copy, PartialEq, Eq, Debug)]
pub enum Entry {
    Call(Request),
    Close { members: u16 },
}
