// Entries written as bytes.
ghost use Rattle.std.specs.Prelude.{◌≡◌, ◌≤◌, ◌∷◌, ◌++◌, length};
ghost use Rattle.wire.specs.Bytes.{four_bytes, placed, placed_at, two_bytes};
ghost use Rattle.entry.specs.Entry.{call_bytes, close_bytes, entry_bytes};

use crate::entry::Entry;
use crate::members::list_members;
use store::{Ask, Request};
use wire::{Fixed, put, put_both};

// A put or a take; `kind` is the byte that tells them apart.
fn amount_bytes(client: u8, number: u32, kind: u8, key: u16, amount: u32) -> [u8; 13]
    ensures { result ≡ 1 ∷ client ∷ (four_bytes number ++ (kind ∷ (two_bytes key ++ four_bytes amount))) }
{
    let n = number.bytes();
    let k = key.bytes();
    let a = amount.bytes();
    [
        1, client, n[0], n[1], n[2], n[3], kind, k[0], k[1], a[0], a[1], a[2], a[3],
    ]
}

// A look.
fn look_bytes(client: u8, number: u32, key: u16) -> [u8; 9]
    ensures { result ≡ 1 ∷ client ∷ (four_bytes number ++ (3 ∷ two_bytes key)) }
{
    let n = number.bytes();
    let k = key.bytes();
    [1, client, n[0], n[1], n[2], n[3], 3, k[0], k[1]]
}

fn write_call(request: Request, out: &mut [u8], at: usize) -> Option<usize>
    ensures end { result ≡ placed (length out.old) at (length (call_bytes request)) }
    ensures bytes { out.new ≡ placed_at out.old at (call_bytes request) }
{
    let client = request.client;
    let number = request.number;
    match request.ask {
        Ask::Put { key, value } => put(out, at, &amount_bytes(client, number, 1, key, value)),
        Ask::Take { key, amount } => put(out, at, &amount_bytes(client, number, 2, key, amount)),
        Ask::Look { key } => put(out, at, &look_bytes(client, number, key)),
    }
}

fn write_close(members: u16, out: &mut [u8], at: usize) -> Option<usize>
    ensures end { result ≡ placed (length out.old) at (length (close_bytes members)) }
    ensures bytes { out.new ≡ placed_at out.old at (close_bytes members) }
{
    let list = list_members(members);
    put_both(out, at, &[2, list.len() as u8], list.as_slice())
}

// Writes an entry into `out` from `at` on, and says where it ends.
// Where there is no room for all of it nothing is written.
pub fn write_entry(entry: Entry, out: &mut [u8], at: usize) -> Option<usize>
    ensures end { result ≡ placed (length out.old) at (length (entry_bytes entry)) }
    ensures bytes { out.new ≡ placed_at out.old at (entry_bytes entry) }
{
    match entry {
        Entry::Call(request) => write_call(request, out, at),
        Entry::Close { members } => write_close(members, out, at),
    }
}

// How many bytes an entry takes.
pub fn entry_size(entry: Entry) -> usize
    ensures size { result ≡ length (entry_bytes entry) }
    ensures bound { result ≤ 18 }
{
    match entry {
        Entry::Call(request) => match request.ask {
            Ask::Put { .. } | Ask::Take { .. } => 13,
            Ask::Look { .. } => 9,
        },
        Entry::Close { members } => 2 + list_members(members).len(),
    }
}
