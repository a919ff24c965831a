// Numbers in bytes, high byte first: read from the front of one lent slice, written into another.
#![tactic(auto)]

ghost use Rattle.wire.specs.Bytes.{placed, placed_at, seen_parts, some};
ghost use Rattle.wire.specs.Exact.{Numbers};
ghost use Rattle.std.specs.Prelude.{◌≡◌, ◌++◌, length};

mod fault;
mod fixed;
mod judged;

pub use fault::Fault;
pub use fixed::Fixed;
pub use judged::{Judged, accept_whole};

// The first `count` bytes, and those behind them.
pub fn read_slice(bytes: &[u8], count: usize) -> Option<(&[u8], &[u8])>
    ensures { seen_parts result ≡ some count bytes.now }
{
    bytes.split_at_checked(count)
}

// Where `count` bytes end that are written from `at` on, if there is room for all of them in `room` bytes.
pub fn end_within(room: usize, at: usize, count: usize) -> Option<usize>
    ensures { result ≡ placed room at count }
{
    at.checked_add(count).filter(|end| *end <= room)
}

// Writes `bytes` over what stands in `out` from `at` on, and says where they end.
// Where there is no room for all of them nothing is written.
// Slice and place stay two parameters, and not a cursor: what is written first may stand behind what is written next.
pub fn put(out: &mut [u8], at: usize, bytes: &[u8]) -> Option<usize>
    ensures end { result ≡ placed (length out.old) at (length bytes.now) }
    ensures bytes { out.new ≡ placed_at out.old at bytes.now }
{
    let end = end_within(out.len(), at, bytes.len())?;
    out[at..end].copy_from_slice(bytes);
    Some(end)
}

// Writes `first` and then `second`, as `put` would write the two joined.
#[tactic(auto, using(crate::proofs::Over::placed_placed))]
pub fn put_both(out: &mut [u8], at: usize, first: &[u8], second: &[u8]) -> Option<usize>
    ensures end { result ≡ placed (length out.old) at (length (first.now ++ second.now)) }
    ensures bytes { out.new ≡ placed_at out.old at (first.now ++ second.now) }
{
    let next = end_within(out.len(), at, first.len())?;
    end_within(out.len(), next, second.len())?;
    put(out, at, first);
    put(out, next, second)
}

// Reading and writing numbers fit each other.
#[tactic(auto, using(crate::proofs::Exacts::numbers))]
pub fn numbers_are_exact()
    ensures { Numbers }
{}
