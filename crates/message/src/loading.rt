// A message read: its entries into a lent log, its page into the lent tables of a store.
ghost use Rattle.message.specs.Loading.{has_room, log_after, log_with, read_in, store_after, store_with};
ghost use Rattle.message.specs.declared.loading.Unread.TheVariants.{Refused};
ghost use Rattle.store.specs.Tables.{SameLoans, held, held_mut};
ghost use Rattle.std.specs.Prelude.{◌≡◌, true};

use crate::head::Message;
use crate::judging::open;
use entries::load_entries;
use entry::Entry;
use page::load_page;
use store::{Tables, TablesMut};
use wire::Fault;

// Why a message was not read: what is wrong with it, or lent memory that is too short for it.
#[derive(Clone, Copy, PartialEq, Eq, Debug)]
pub enum Unread {
    Refused(Fault),
    NoRoom,
}

impl From<Fault> for Unread {
    ghost from_gives = { λ fault unread. unread ≡ Refused fault };

    fn from(fault: Fault) -> Unread {
        Unread::Refused(fault)
    }
}

// Whether there is room for what a message brings.
fn has_room(message: Message, log: &[Entry], store: Tables<'_>) -> bool
    ensures { result ≡ has_room message log.now (held store.entry) }
{
    match message {
        Message::Ask { .. } | Message::Took { .. } => true,
        Message::Promise { count, .. } => usize::from(count) <= log.len(),
        Message::Part { place, count, .. } => {
            usize::from(place) + usize::from(count) <= log.len()
        }
        Message::Begin { .. } => store.is_whole(),
    }
}

// Reads the body of a message.
fn load(message: Message, body: &[u8], log: &mut [Entry], store: &mut TablesMut<'_>)
    requires { has_room message log.old (held_mut store.old) ≡ true }
    ensures log { log.new ≡ log_with message body.now log.old }
    ensures store { held_mut store.new ≡ store_with message body.now (held_mut store.old) }
    ensures loans { SameLoans store.old store.new }
{
    match message {
        Message::Ask { .. } | Message::Took { .. } => {}
        Message::Promise { count, .. } => {
            load_entries(body, count, log);
        }
        Message::Part { place, count, .. } => {
            load_entries(body, count, &mut log[usize::from(place)..]);
        }
        Message::Begin { .. } => {
            load_page(body, store);
        }
    }
}

// Reads a message: its head; a promise's entries into the log from its first place on, a part's from that part's
// place on; a begin's page into the tables. Nothing changes where the message is refused or there is no room for it.
pub fn read(bytes: &[u8], log: &mut [Entry], store: &mut TablesMut<'_>) -> Result<Message, Unread>
    ensures head { result ≡ read_in bytes.now log.old (held_mut store.old) }
    ensures log { log.new ≡ log_after bytes.now log.old (held_mut store.old) }
    ensures store { held_mut store.new ≡ store_after bytes.now log.old (held_mut store.old) }
    ensures loans { SameLoans store.old store.new }
{
    let (message, body) = open(bytes)?;
    if !has_room(message, log, store.as_tables()) {
        return Err(Unread::NoRoom);
    }
    load(message, body, log, store);
    Ok(message)
}
