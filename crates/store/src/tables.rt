// The tables of a store, in lent memory.
ghost use Rattle.std.specs.Prelude.{◌≡◌, if◌then◌else◌, None, Some, option_map, true};
ghost use Rattle.store.specs.Store.{cleared, whole};
ghost use Rattle.store.specs.Tables.{SameLoans, held, held_mut};

pub const SHELVES: usize = 1024;

pub const CLIENTS: usize = 256;

// What each shelf holds; of each client, the number of its last request that was done, and the word that this one got.
// Slices of words, and lasts beside words: the project lends all memory, a table for each number that the store has.
#[derive(Clone, Copy, Debug)]
pub struct Tables<'a> {
    pub shelves: &'a [u32],
    pub lasts: &'a [u32],
    pub words: &'a [u32],
}

// The same, to be written: two types, as a shared and a mutable slice are.
#[derive(Drop, Debug)]
pub struct TablesMut<'a> {
    pub shelves: &'a mut [u32],
    pub lasts: &'a mut [u32],
    pub words: &'a mut [u32],
}

// Tables that are those of a store.
#[derive(Clone, Copy, Debug)]
pub struct WholeTables<'a> {
    pub tables: Tables<'a>,
    pub ghost whole: { whole (held tables) ≡ true },
}

impl<'a> Tables<'a> {
    // Whether they are those of a store: a word for each shelf, two for each client.
    pub fn is_whole(self) -> bool
        ensures { result ≡ whole (held self.entry) }
    {
        self.shelves.len() == SHELVES && self.lasts.len() == CLIENTS && self.words.len() == CLIENTS
    }

    // These tables, if they are those of a store.
    pub fn whole(self) -> Option<WholeTables<'a>>
        ensures { option_map (λ store. store.tables) result ≡ (if whole (held self.entry) then Some self.entry else None) }
    {
        if !self.is_whole() {
            return None;
        }
        Some(WholeTables { tables: self })
    }
}

impl TablesMut<'_> {
    // The same tables, to be read.
    pub fn as_tables(&self) -> Tables<'_>
        ensures { held result ≡ held_mut self.now }
    {
        Tables {
            shelves: self.shelves,
            lasts: self.lasts,
            words: self.words,
        }
    }

    // Whether they are those of a store.
    pub fn is_whole(&self) -> bool
        ensures { result ≡ whole (held_mut self.now) }
    {
        self.as_tables().is_whole()
    }

    // Makes each word 0.
    pub fn clear(&mut self)
        ensures loans { SameLoans self.old self.new }
        ensures store { held_mut self.new ≡ cleared (held_mut self.old) }
    {
        self.shelves.fill(0);
        self.lasts.fill(0);
        self.words.fill(0);
    }
}
