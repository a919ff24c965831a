// Entries read from bytes.
ghost use Rattle.wire.specs.Bytes.{seen};
ghost use Rattle.entry.specs.Entry.{ask_of, entry_of, request_of};
ghost use Rattle.std.specs.Prelude.{◌≡◌};

use crate::entry::Entry;
use crate::members::read_members;
use store::{Ask, Request};
use wire::{Fixed, Judged};

fn read_ask(bytes: &[u8]) -> Option<(Ask, &[u8])>
    ensures { seen result ≡ ask_of bytes.now }
{
    let (kind, rest) = u8::read(bytes)?;
    let (key, rest) = u16::read(rest)?;
    match kind {
        1 => {
            let (value, rest) = u32::read(rest)?;
            Some((Ask::Put { key, value }, rest))
        }
        2 => {
            let (amount, rest) = u32::read(rest)?;
            Some((Ask::Take { key, amount }, rest))
        }
        3 => Some((Ask::Look { key }, rest)),
        0 | 4..=255 => None,
    }
}

fn read_request(bytes: &[u8]) -> Option<(Request, &[u8])>
    ensures { seen result ≡ request_of bytes.now }
{
    let (client, rest) = u8::read(bytes)?;
    let (number, rest) = u32::read(rest)?;
    let (ask, rest) = read_ask(rest)?;
    Some((
        Request {
            client,
            number,
            ask,
        },
        rest,
    ))
}

// The entry at the front of some bytes, and those behind it; nothing if they are cut short, of an unknown kind,
// or name more than 16 members. It is sound if its key is a shelf's, or its members are a council.
pub fn read_entry(bytes: &[u8]) -> Option<(Judged<Entry>, &[u8])>
    ensures { seen result ≡ entry_of bytes.now }
{
    let (kind, rest) = u8::read(bytes)?;
    match kind {
        1 => {
            let (request, rest) = read_request(rest)?;
            let value = Entry::Call(request);
            let sound = request.ask.names_shelf();
            Some((Judged { value, sound }, rest))
        }
        2 => {
            let (members, rest) = read_members(rest)?;
            Some((members.map(|members| Entry::Close { members }), rest))
        }
        0 | 3..=255 => None,
    }
}
