// A store as text.
ghost use Rattle.print.specs.Rows.{clients_text, shelves_text, store_text};
ghost use Rattle.std.specs.Prelude.{Some};
ghost use Rattle.store.specs.Tables.{held};

use std::fmt;
use store::Tables;

// A row for each shelf that holds something.
#[derive(Clone, Copy, Debug)]
struct ShelvesText<'a>(&'a [u32]);

impl fmt::Display for ShelvesText<'_> {
    ghost output = { λ s. Some (shelves_text s.0.now) };

    #[tactic(auto, using(crate::proofs::Printed::row_written))]
    fn fmt<W: fmt::Write>(&self, f: &mut fmt::Formatter<W>) -> fmt::Result {
        for (key, held) in self.0.iter().enumerate() {
            if *held != 0 {
                writeln!(f, "shelf {key} {held}")?;
            }
        }
        Ok(())
    }
}

// A row for each client that had something done.
#[derive(Clone, Copy, Debug)]
struct ClientsText<'a> {
    lasts: &'a [u32],
    words: &'a [u32],
}

impl fmt::Display for ClientsText<'_> {
    ghost output = { λ c. Some (clients_text c.lasts.now c.words.now) };

    fn fmt<W: fmt::Write>(&self, f: &mut fmt::Formatter<W>) -> fmt::Result {
        for (client, last) in self.lasts.iter().enumerate() {
            if *last != 0 {
                let word = self.words.get(client).copied().unwrap_or(0);
                writeln!(f, "client {client} last {last} word {word}")?;
            }
        }
        Ok(())
    }
}

// A store: its shelves, then its clients.
#[derive(Clone, Copy, Debug)]
pub struct StoreText<'a>(pub Tables<'a>);

impl fmt::Display for StoreText<'_> {
    ghost output = { λ s. Some (store_text (held s.0)) };

    fn fmt<W: fmt::Write>(&self, f: &mut fmt::Formatter<W>) -> fmt::Result {
        let shelves = ShelvesText(self.0.shelves);
        let clients = ClientsText {
            lasts: self.0.lasts,
            words: self.0.words,
        };
        write!(f, "{shelves}{clients}")
    }
}
