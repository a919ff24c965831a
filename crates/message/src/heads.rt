// The head of a message: its kind, and all that stands before its entries or its page.
ghost use Rattle.wire.specs.Bytes.{seen};
ghost use Rattle.message.specs.Message.{ask_of, head_of_begin, head_of, head_of_part, head_of_promise, took_of};
ghost use Rattle.std.specs.Prelude.{◌≡◌};

use crate::head::Message;
use entries::LOG;
use entry::read_members;
use wire::{Fixed, Judged};

fn read_ask(bytes: &[u8]) -> Option<(Judged<Message>, &[u8])>
    ensures { seen result ≡ ask_of bytes.now }
{
    let (term, rest) = u16::read(bytes)?;
    let (ballot, rest) = u32::read(rest)?;
    let value = Message::Ask { term, ballot };
    let sound = ballot > 0;
    Some((Judged { value, sound }, rest))
}

fn read_promise(bytes: &[u8]) -> Option<(Judged<Message>, &[u8])>
    ensures { seen result ≡ head_of_promise bytes.now }
{
    let (term, rest) = u16::read(bytes)?;
    let (ballot, rest) = u32::read(rest)?;
    let (from, rest) = u8::read(rest)?;
    let (had, rest) = u32::read(rest)?;
    let (count, rest) = u16::read(rest)?;
    if count > LOG {
        return None;
    }
    let value = Message::Promise {
        term,
        ballot,
        from,
        had,
        count,
    };
    let sound = from < 16;
    Some((Judged { value, sound }, rest))
}

fn read_part(bytes: &[u8]) -> Option<(Judged<Message>, &[u8])>
    ensures { seen result ≡ head_of_part bytes.now }
{
    let (term, rest) = u16::read(bytes)?;
    let (ballot, rest) = u32::read(rest)?;
    let (place, rest) = u16::read(rest)?;
    let (count, rest) = u16::read(rest)?;
    if u32::from(place) + u32::from(count) > u32::from(LOG) {
        return None;
    }
    let value = Message::Part {
        term,
        ballot,
        place,
        count,
    };
    let sound = ballot > 0;
    Some((Judged { value, sound }, rest))
}

fn read_took(bytes: &[u8]) -> Option<(Judged<Message>, &[u8])>
    ensures { seen result ≡ took_of bytes.now }
{
    let (term, rest) = u16::read(bytes)?;
    let (ballot, rest) = u32::read(rest)?;
    let (from, rest) = u8::read(rest)?;
    let (count, rest) = u16::read(rest)?;
    if count > LOG {
        return None;
    }
    let value = Message::Took {
        term,
        ballot,
        from,
        count,
    };
    let sound = ballot > 0 && from < 16;
    Some((Judged { value, sound }, rest))
}

// Its page says first how many entries stand before, and is still to be read whole.
fn read_begin(bytes: &[u8]) -> Option<(Judged<Message>, &[u8])>
    ensures { seen result ≡ head_of_begin bytes.now }
{
    let (term, rest) = u16::read(bytes)?;
    let (members, page) = read_members(rest)?;
    let (before, _) = u32::read(page)?;
    let begin = members.map(|members| Message::Begin {
        term,
        members,
        before,
    });
    Some((begin, page))
}

// The head at the front of some bytes, by its kind, and its body: the bytes behind it.
pub fn read_head(bytes: &[u8]) -> Option<(Judged<Message>, &[u8])>
    ensures { seen result ≡ head_of bytes.now }
{
    let (kind, rest) = u8::read(bytes)?;
    match kind {
        3 => read_ask(rest),
        4 => read_promise(rest),
        5 => read_part(rest),
        6 => read_took(rest),
        7 => read_begin(rest),
        0..=2 | 8..=255 => None,
    }
}
