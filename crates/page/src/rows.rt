// The rows of a page, one by one.
ghost use Rattle.wire.specs.Bytes.{seen};
ghost use Rattle.page.specs.Rows.{client, client_bytes, client_of, client_row, count_of, is_next_client, is_next_shelf, key, row_in, shelf_bytes, shelf_of, shelf_row, with_client, with_shelf};
ghost use Rattle.std.specs.Prelude.{◌≡◌, ◌≤◌, ℕ, Bool, List, length, slice_set};
ghost use Rattle.store.specs.Store.{Store};
ghost use Rattle.store.specs.Tables.{SameLoans, held, held_mut};

use store::{TablesMut, WholeTables};
use wire::Fixed;

// A row of N bytes: a place of a table, a shelf's key or a client, and what stands there.
pub trait Row<const N: usize>: Fixed<N> {
    // How many rows a page can have.
    const LIMIT: u16;

    ghost LIMIT: { ℕ };

    ghost place: { Self → ℕ };

    ghost is_next: { ℕ → Self → Bool };

    ghost put: { Store → Self → Store };

    ghost cells: { Store → List ℕ };

    ghost row_at: { Store → ℕ → ℕ → Self };

    fn place(self) -> u16
        ensures { result ≡ place self };

    // Whether it can stand where `next` is the lowest place that is left.
    fn is_next(self, next: u32) -> bool
        ensures { result ≡ is_next next self };

    // Puts it into the tables; where they have no such place, nothing changes.
    fn put(self, store: &mut TablesMut<'_>)
        ensures loans { SameLoans store.old store.new }
        ensures store { held_mut store.new ≡ put (held_mut store.old) self };

    // The table whose cells have a row each, unless they are 0.
    fn cells(store: WholeTables<'_>) -> &[u32]
        ensures is { result.now ≡ cells (held store.entry.tables) }
        ensures few { length result.now ≤ 1024 };

    // The row of a place, if its cell isn't 0.
    fn row_at(store: WholeTables<'_>, at: usize) -> Option<Self>
        ensures { result ≡ row_in (row_at (held store.entry.tables)) (cells (held store.entry.tables)) at };
}

// A shelf and the number that it holds.
#[derive(Clone, Copy, PartialEq, Eq, Debug)]
pub struct Shelf {
    pub key: u16,
    pub number: u32,
}

// A client, the number of its last request and the word that this one got.
#[derive(Clone, Copy, PartialEq, Eq, Debug)]
pub struct Client {
    pub client: u8,
    pub last: u32,
    pub word: u32,
}

impl Fixed<6> for Shelf {
    ghost decoded = { shelf_of };

    ghost encoded = { shelf_bytes };

    fn read(bytes: &[u8]) -> Option<(Shelf, &[u8])> {
        let (key, rest) = u16::read(bytes)?;
        let (number, rest) = u32::read(rest)?;
        Some((Shelf { key, number }, rest))
    }

    fn bytes(self) -> [u8; 6] {
        let k = self.key.bytes();
        let n = self.number.bytes();
        [k[0], k[1], n[0], n[1], n[2], n[3]]
    }
}

impl Fixed<9> for Client {
    ghost decoded = { client_of };

    ghost encoded = { client_bytes };

    fn read(bytes: &[u8]) -> Option<(Client, &[u8])> {
        let (client, rest) = u8::read(bytes)?;
        let (last, rest) = u32::read(rest)?;
        let (word, rest) = u32::read(rest)?;
        Some((Client { client, last, word }, rest))
    }

    fn bytes(self) -> [u8; 9] {
        let l = self.last.bytes();
        let w = self.word.bytes();
        [self.client, l[0], l[1], l[2], l[3], w[0], w[1], w[2], w[3]]
    }
}

impl Row<6> for Shelf {
    const LIMIT: u16 = 1024;

    ghost LIMIT = { 1024 };

    ghost place = { key };

    ghost is_next = { is_next_shelf };

    ghost put = { with_shelf };

    ghost cells = { λ s. s.shelves };

    ghost row_at = { λ s. shelf_row };

    fn place(self) -> u16 {
        self.key
    }

    fn is_next(self, next: u32) -> bool {
        next <= u32::from(self.key) && self.key < 1024 && self.number != 0
    }

    fn put(self, store: &mut TablesMut<'_>) {
        set_cell(store.shelves, usize::from(self.key), self.number);
    }

    fn cells(store: WholeTables<'_>) -> &[u32] {
        store.tables.shelves
    }

    fn row_at(store: WholeTables<'_>, at: usize) -> Option<Shelf> {
        let number = *store.tables.shelves.get(at)?;
        let key = at as u16;
        (number != 0).then_some(Shelf { key, number })
    }
}

impl Row<9> for Client {
    const LIMIT: u16 = 256;

    ghost LIMIT = { 256 };

    ghost place = { client };

    ghost is_next = { is_next_client };

    ghost put = { with_client };

    ghost cells = { λ s. s.lasts };

    ghost row_at = { λ s. client_row s.words };

    fn place(self) -> u16 {
        u16::from(self.client)
    }

    fn is_next(self, next: u32) -> bool {
        next <= u32::from(self.client) && self.last != 0
    }

    fn put(self, store: &mut TablesMut<'_>) {
        set_cell(store.lasts, usize::from(self.client), self.last);
        set_cell(store.words, usize::from(self.client), self.word);
    }

    fn cells(store: WholeTables<'_>) -> &[u32] {
        store.tables.lasts
    }

    fn row_at(store: WholeTables<'_>, at: usize) -> Option<Client> {
        let last = *store.tables.lasts.get(at)?;
        // a word is looked at only where there is a row
        if last == 0 {
            return None;
        }
        let client = at as u8;
        let word = store.tables.words[at];
        Some(Client { client, last, word })
    }
}

// Sets one cell; where there is none, nothing changes.
// By index, since a proof knows only the length of what the slice's `get_mut` leaves.
fn set_cell(cells: &mut [u32], at: usize, value: u32)
    ensures { cells.new ≡ slice_set cells.old at value }
{
    if at < cells.len() {
        cells[at] = value;
    }
}

// How many rows follow, at most `limit`.
pub fn read_count(bytes: &[u8], limit: u16) -> Option<(u16, &[u8])>
    ensures { seen result ≡ count_of limit bytes.now }
{
    let (count, rest) = u16::read(bytes)?;
    if count > limit {
        return None;
    }
    Some((count, rest))
}
