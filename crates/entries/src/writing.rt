// Entries written as bytes, one behind the other.
ghost use Rattle.std.specs.Prelude.{◌≡◌, ◌+◌, ◌*◌, ◌≤◌, ◌++◌, length, None};
ghost use Rattle.wire.specs.Bytes.{placed, placed_at};
ghost use Rattle.entries.specs.Entries.{entries_bytes, fitting};

use entry::{Entry, entry_size, write_entry};
use wire::{end_within, put};

// The most entries that a log has.
pub const LOG: u16 = 4096;

// How many bytes some entries take.
pub fn entries_size(entries: &[Entry]) -> usize
    requires { length entries.now ≤ 4096 }
    ensures size { result ≡ length (entries_bytes entries.now) }
    ensures bound { result ≤ 18 * length entries.now }
{
    // not `sum`: its clause is about the iterator's runs, and the bound would still have to be shown
    let mut size = 0;
    for entry in entries {
        size += entry_size(*entry);
    }
    size
}

// Writes entries where there is room for all of them, and says where they end.
pub fn put_entries(entries: &[Entry], out: &mut [u8], at: usize) -> usize
    requires { at + length (entries_bytes entries.now) ≤ length out.old }
    ensures end { result ≡ at + length (entries_bytes entries.now) }
    ensures bytes { out.new ≡ placed_at out.old at (entries_bytes entries.now) }
{
    let mut next = at;
    for entry in entries {
        next = write_entry(*entry, out, next).unwrap();
    }
    next
}

// Writes a header and the entries behind it into `out` from `at` on, and says where they end.
// More entries than a log has are refused; then, or without room for all of it, nothing is written.
#[tactic(auto, using(wire::proofs::Over::placed_placed))]
pub fn write_behind(header: &[u8], entries: &[Entry], out: &mut [u8], at: usize) -> Option<usize>
    ensures end { result ≡ fitting (length entries.now) (placed (length out.old) at (length (header.now ++ entries_bytes entries.now))) None }
    ensures bytes { out.new ≡ fitting (length entries.now) (placed_at out.old at (header.now ++ entries_bytes entries.now)) out.old }
{
    if entries.len() > usize::from(LOG) {
        return None;
    }
    let next = end_within(out.len(), at, header.len())?;
    end_within(out.len(), next, entries_size(entries))?;
    put(out, at, header);
    Some(put_entries(entries, out, next))
}
