// Entries as text.
ghost use Rattle.wire.specs.Several.{joined};
ghost use Rattle.print.specs.Messages.{ask_text, entry_text, members_text};
ghost use Rattle.std.specs.Prelude.{Some};

use entry::{Entry, list_members};
use std::fmt;
use store::{Ask, Request};

// `put KEY VALUE`, `take KEY AMOUNT` or `look KEY`
#[derive(Clone, Copy, PartialEq, Eq, Debug)]
struct AskText(Ask);

impl fmt::Display for AskText {
    ghost output = { λ a. Some (ask_text a.0) };

    fn fmt<W: fmt::Write>(&self, f: &mut fmt::Formatter<W>) -> fmt::Result {
        match self.0 {
            Ask::Put { key, value } => write!(f, "put {key} {value}"),
            Ask::Take { key, amount } => write!(f, "take {key} {amount}"),
            Ask::Look { key } => write!(f, "look {key}"),
        }
    }
}

// `M,M,..`
#[derive(Clone, Copy, PartialEq, Eq, Debug)]
pub struct MembersText(pub u16);

impl fmt::Display for MembersText {
    ghost output = { λ m. Some (members_text m.0) };

    #[tactic(auto, using(crate::proofs::Printed::row_written))]
    fn fmt<W: fmt::Write>(&self, f: &mut fmt::Formatter<W>) -> fmt::Result {
        let list = list_members(self.0);
        for (i, station) in list.as_slice().iter().enumerate() {
            let comma = if i == 0 { "" } else { "," };
            write!(f, "{comma}{station}")?;
        }
        Ok(())
    }
}

// `entry CLIENT NUMBER ..` or `entry close M,M,..`, a whole line.
#[derive(Clone, Copy, PartialEq, Eq, Debug)]
pub struct EntryText(pub Entry);

impl fmt::Display for EntryText {
    ghost output = { λ e. Some (entry_text e.0) };

    fn fmt<W: fmt::Write>(&self, f: &mut fmt::Formatter<W>) -> fmt::Result {
        match self.0 {
            Entry::Call(
                Request {
                    client,
                    number,
                    ask,
                },
            ) => writeln!(f, "entry {client} {number} {}", AskText(ask)),
            Entry::Close { members } => writeln!(f, "entry close {}", MembersText(members)),
        }
    }
}

// A line for each.
#[derive(Clone, Copy, Debug)]
pub struct EntriesText<'a>(pub &'a [Entry]);

impl fmt::Display for EntriesText<'_> {
    ghost output = { λ es. Some (joined entry_text es.0.now) };

    fn fmt<W: fmt::Write>(&self, f: &mut fmt::Formatter<W>) -> fmt::Result {
        for entry in self.0 {
            write!(f, "{}", EntryText(*entry))?;
        }
        Ok(())
    }
}
