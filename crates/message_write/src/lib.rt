// Messages written as bytes.
#![tactic(auto)]

ghost use Rattle.std.specs.Prelude.{◌≡◌, ◌+◌, length, if◌then◌else◌, None};
ghost use Rattle.wire.specs.Bytes.{placed, placed_at};
ghost use Rattle.entries.specs.Entries.{fitting};
ghost use Rattle.message.specs.Message.{ask_bytes, begin_bytes, part_bytes, promise_bytes, took_bytes};
ghost use Rattle.store.specs.Store.{whole};
ghost use Rattle.store.specs.Tables.{held};

use entries::{LOG, write_behind};
use entry::{Entry, list_members};
use page_write::write_page;
use store::Tables;
use wire::{Fixed, put, put_both};

// Writes an ask into `out` from `at` on, and says where it ends; without room for all of it nothing is written.
pub fn write_ask(term: u16, ballot: u32, out: &mut [u8], at: usize) -> Option<usize>
    ensures end { result ≡ placed (length out.old) at (length (ask_bytes term ballot)) }
    ensures bytes { out.new ≡ placed_at out.old at (ask_bytes term ballot) }
{
    let t = term.bytes();
    let b = ballot.bytes();
    put(out, at, &[3, t[0], t[1], b[0], b[1], b[2], b[3]])
}

// Writes a took likewise.
pub fn write_took(
    term: u16,
    ballot: u32,
    from: u8,
    count: u16,
    out: &mut [u8],
    at: usize,
) -> Option<usize>
    ensures end { result ≡ placed (length out.old) at (length (took_bytes term ballot from count)) }
    ensures bytes { out.new ≡ placed_at out.old at (took_bytes term ballot from count) }
{
    let t = term.bytes();
    let b = ballot.bytes();
    let c = count.bytes();
    put(
        out,
        at,
        &[6, t[0], t[1], b[0], b[1], b[2], b[3], from, c[0], c[1]],
    )
}

// Writes a log part likewise: entries from a place on, of which a log has 4,096 places.
pub fn write_part(
    term: u16,
    ballot: u32,
    place: u16,
    entries: &[Entry],
    out: &mut [u8],
    at: usize,
) -> Option<usize>
    ensures end { result ≡ fitting (place + length entries.now) (placed (length out.old) at (length (part_bytes term ballot place entries.now))) None }
    ensures bytes { out.new ≡ fitting (place + length entries.now) (placed_at out.old at (part_bytes term ballot place entries.now)) out.old }
{
    let count = u16::try_from(entries.len()).ok()?;
    if u32::from(place) + u32::from(count) > u32::from(LOG) {
        return None;
    }
    let t = term.bytes();
    let b = ballot.bytes();
    let p = place.bytes();
    let c = count.bytes();
    let header = [
        5, t[0], t[1], b[0], b[1], b[2], b[3], p[0], p[1], c[0], c[1],
    ];
    write_behind(&header, entries, out, at)
}

// Writes a promise likewise, with the station's log and that log's ballot.
pub fn write_promise(
    term: u16,
    ballot: u32,
    from: u8,
    had: u32,
    entries: &[Entry],
    out: &mut [u8],
    at: usize,
) -> Option<usize>
    ensures end { result ≡ fitting (length entries.now) (placed (length out.old) at (length (promise_bytes term ballot from had entries.now))) None }
    ensures bytes { out.new ≡ fitting (length entries.now) (placed_at out.old at (promise_bytes term ballot from had entries.now)) out.old }
{
    let t = term.bytes();
    let b = ballot.bytes();
    let h = had.bytes();
    let c = u16::try_from(entries.len()).ok()?.bytes();
    let header = [
        4, t[0], t[1], b[0], b[1], b[2], b[3], from, h[0], h[1], h[2], h[3], c[0], c[1],
    ];
    write_behind(&header, entries, out, at)
}

// Writes a begin likewise: the members of a council, and the page of the store before it, which only a store has.
pub fn write_begin(
    term: u16,
    members: u16,
    before: u32,
    store: Tables<'_>,
    out: &mut [u8],
    at: usize,
) -> Option<usize>
    ensures end { result ≡ (if whole (held store.entry) then placed (length out.old) at (length (begin_bytes term members before (held store.entry))) else None) }
    ensures bytes { out.new ≡ (if whole (held store.entry) then placed_at out.old at (begin_bytes term members before (held store.entry)) else out.old) }
{
    let t = term.bytes();
    let list = list_members(members);
    let page = at.checked_add(4 + list.len())?;
    let end = write_page(before, store, out, page)?;
    let header = [7, t[0], t[1], list.len() as u8];
    put_both(out, at, &header, list.as_slice());
    Some(end)
}
