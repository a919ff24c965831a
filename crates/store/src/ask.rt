// What a request asks of one shelf.
ghost use Rattle.store.specs.Ask.{key_of, leaves, says};
ghost use Rattle.std.specs.Prelude.{◌≡◌, nat_lt};

use crate::tables::SHELVES;

#[derive(Clone, Copy, PartialEq, Eq, Debug)]
pub enum Ask {
    Put { key: u16, value: u32 },
    Take { key: u16, amount: u32 },
    Look { key: u16 },
}

impl Ask {
    // The shelf that it is about.
    pub fn key(self) -> u16
        ensures { result ≡ key_of self }
    {
        match self {
            Ask::Put { key, .. } | Ask::Take { key, .. } | Ask::Look { key } => key,
        }
    }

    // Whether there is such a shelf.
    pub fn names_shelf(self) -> bool
        ensures { result ≡ nat_lt (key_of self) 1024 }
    {
        usize::from(self.key()) < SHELVES
    }

    // What the shelf holds afterwards, if it held that much.
    pub fn leaves(self, held: u32) -> u32
        ensures { result ≡ leaves self held }
    {
        match self {
            Ask::Put { value, .. } => value,
            Ask::Take { amount, .. } => held.saturating_sub(amount),
            Ask::Look { .. } => held,
        }
    }

    // The word that the client gets, if the shelf held that much.
    pub fn word(self, held: u32) -> u32
        ensures { result ≡ says self held }
    {
        match self {
            Ask::Put { .. } | Ask::Look { .. } => held,
            Ask::Take { amount, .. } => held.min(amount),
        }
    }
}
