// A page put into the store in lent memory.
ghost use Rattle.wire.specs.Several.{after, made, rest_of, seen_rest};
ghost use Rattle.page.specs.Page.{filled, loaded, outcome, page_of, raw_page_of, with_rows};
ghost use Rattle.page.specs.Rows.{left_with, rows_of, skip_of};
ghost use Rattle.store.specs.Store.{whole};
ghost use Rattle.store.specs.Tables.{SameLoans, held_mut};
ghost use Rattle.std.specs.Prelude.{◌≡◌, ◌<◌, if◌then◌else◌, None};

use crate::judge::judge_page;
use crate::rows::{Client, Row, Shelf, read_count};
use store::TablesMut;
use wire::{Fault, Fixed, accept_whole, read_slice};

// Puts rows, behind their count, into the tables, and gives the bytes behind them.
fn fill_rows<'a, const N: usize, R: Row<N>>(
    bytes: &'a [u8],
    store: &mut TablesMut<'_>,
) -> Option<&'a [u8]>
    ensures rest { left_with result (held_mut store.new) ≡ made (after R.put (held_mut store.old)) (rows_of R.decoded R.LIMIT bytes.now) }
    ensures loans { SameLoans store.old store.new }
{
    let (count, mut rest) = read_count(bytes, R::LIMIT)?;
    for _ in 0..count {
        let (row, after) = R::read(rest)?;
        row.put(store);
        rest = after;
    }
    Some(rest)
}

// Puts the rows of a page into the tables, and gives the bytes behind it.
fn fill_tables<'a>(bytes: &'a [u8], store: &mut TablesMut<'_>) -> Option<&'a [u8]>
    ensures rest { left_with result (held_mut store.new) ≡ made (with_rows (held_mut store.old)) (raw_page_of bytes.now) }
    ensures loans { SameLoans store.old store.new }
{
    let (_, rest) = u32::read(bytes)?;
    let rest = fill_rows::<6, Shelf>(rest, store)?;
    fill_rows::<9, Client>(rest, store)
}

// The bytes behind a count and so many rows, found without a look at them.
fn skip_rows<const N: usize, R: Row<N>>(bytes: &[u8]) -> Option<&[u8]>
    requires { N < 65536 }
    ensures { seen_rest result ≡ rest_of (skip_of R.LIMIT N bytes.now) }
{
    let (count, rest) = read_count(bytes, R::LIMIT)?;
    let (_, rest) = read_slice(rest, N * usize::from(count))?;
    Some(rest)
}

// The bytes behind the page at the front, found without a look at its rows: a shelf takes 6 bytes, a client 9.
#[tactic(auto, using(crate::proofs::Widths::page_skip))]
fn page_end(bytes: &[u8]) -> Option<&[u8]>
    ensures { seen_rest result ≡ rest_of (raw_page_of bytes.now) }
{
    let (_, rest) = u32::read(bytes)?;
    let rest = skip_rows::<6, Shelf>(rest)?;
    skip_rows::<9, Client>(rest)
}

// Puts the page at the front of some bytes into the tables of a store, 0 wherever it has no row, and gives the bytes behind it.
// Where no page stands there, or the tables are no store, nothing changes. Whether it is in range is not asked: `judge_page` says that.
pub fn load_page<'a>(bytes: &'a [u8], store: &mut TablesMut<'_>) -> Option<&'a [u8]>
    ensures rest { seen_rest result ≡ (if whole (held_mut store.old) then rest_of (raw_page_of bytes.now) else None) }
    ensures store { held_mut store.new ≡ loaded (held_mut store.old) (raw_page_of bytes.now) }
    ensures loans { SameLoans store.old store.new }
{
    if !store.is_whole() {
        return None;
    }
    page_end(bytes)?;
    store.clear();
    fill_tables(bytes, store)
}

// Reads a page into the tables of a store, and says how many entries stand before it.
// Bytes that are refused change nothing.
pub fn read_page(bytes: &[u8], store: &mut TablesMut<'_>) -> Result<u32, Fault>
    ensures before { result ≡ outcome (held_mut store.old) (page_of bytes.now) }
    ensures store { held_mut store.new ≡ filled (held_mut store.old) bytes.now }
    ensures loans { SameLoans store.old store.new }
{
    if !store.is_whole() {
        return Err(Fault::Malformed);
    }
    let before = accept_whole(judge_page(bytes))?;
    load_page(bytes, store);
    Ok(before)
}
