// A store written as a page.
#![tactic(auto)]

ghost use Rattle.std.specs.Prelude.{◌≡◌, ◌+◌, ◌<◌, ◌≤◌, length};
ghost use Rattle.wire.specs.Bytes.{placed_at};
ghost use Rattle.page.specs.Page.{page_at, page_bytes, page_end, page_size};
ghost use Rattle.page.specs.Rows.{occupied, table_bytes};
ghost use Rattle.store.specs.Tables.{held};

use page::{Client, Row, Shelf};
use store::{Tables, WholeTables};
use wire::{Fixed, end_within, put};

// How many cells don't hold 0.
fn count_rows(cells: &[u32]) -> usize
    ensures count { result ≡ occupied cells.now }
    ensures within { result ≤ length cells.now }
{
    let mut count = 0;
    // by a loop, since `filter` has no count of its own and is slower
    for cell in cells {
        if *cell != 0 {
            count += 1;
        }
    }
    count
}

// Writes where there is room, and says where that ends.
fn put_part(out: &mut [u8], at: usize, bytes: &[u8]) -> usize
    requires { at + length bytes.now ≤ length out.old }
    ensures end { result ≡ at + length bytes.now }
    ensures bytes { out.new ≡ placed_at out.old at bytes.now }
{
    put(out, at, bytes).unwrap()
}

// Writes the rows of a table behind their count, where there is room.
fn put_rows<const N: usize, R: Row<N>>(out: &mut [u8], at: usize, store: WholeTables<'_>) -> usize
    requires width { N < 65536 }
    requires room { at + length (table_bytes R.encoded (R.row_at (held store.tables)) (R.cells (held store.tables))) ≤ length out.old }
    ensures end { result ≡ at + length (table_bytes R.encoded (R.row_at (held store.entry.tables)) (R.cells (held store.entry.tables))) }
    ensures bytes { out.new ≡ placed_at out.old at (table_bytes R.encoded (R.row_at (held store.entry.tables)) (R.cells (held store.entry.tables))) }
{
    let cells = R::cells(store);
    let mut next = put_part(out, at, &(count_rows(cells) as u16).bytes());
    // each place is asked, and not each cell: a client's row is more than its cell
    for place in 0..cells.len() {
        if let Some(row) = R::row_at(store, place) {
            next = put_part(out, next, &row.bytes());
        }
    }
    next
}

// Writes the page of a store, where there is room.
#[tactic(auto, using(crate::proofs::Sizes::page_parts))]
fn put_page(before: u32, store: WholeTables<'_>, out: &mut [u8], at: usize) -> usize
    requires room { at + length (page_bytes before (held store.tables)) ≤ length out.old }
    ensures end { result ≡ at + length (page_bytes before (held store.entry.tables)) }
    ensures bytes { out.new ≡ placed_at out.old at (page_bytes before (held store.entry.tables)) }
{
    let next = put_part(out, at, &before.bytes());
    let next = put_rows::<6, Shelf>(out, next, store);
    put_rows::<9, Client>(out, next, store)
}

// How many bytes the page of a store takes.
fn page_size(store: WholeTables<'_>) -> usize
    ensures { result ≡ page_size (held store.entry.tables).shelves (held store.entry.tables).lasts }
{
    8 + 6 * count_rows(store.tables.shelves) + 9 * count_rows(store.tables.lasts)
}

// Writes the page of a store into `out` from `at` on, and says where it ends.
// Tables that are no store have none; then, or where there is no room for all of it, nothing is written.
#[tactic(auto, using(crate::proofs::Sizes::page_size_lem))]
pub fn write_page(before: u32, store: Tables<'_>, out: &mut [u8], at: usize) -> Option<usize>
    ensures end { result ≡ page_end (length out.old) at before (held store.entry) }
    ensures bytes { out.new ≡ page_at out.old at before (held store.entry) }
{
    let store = store.whole()?;
    end_within(out.len(), at, page_size(store))?;
    Some(put_page(before, store, out, at))
}
