// Messages as text.
ghost use Rattle.print.specs.Messages.{begin_text, body_text, head_text};
ghost use Rattle.std.specs.Fmt.{WritesOnOk};
ghost use Rattle.std.specs.Prelude.{◌≡◌, ◌++◌, take, drop, Some};
ghost use Rattle.store.specs.Tables.{held};

use crate::entry_lines::{EntriesText, MembersText};
use crate::tables::StoreText;
use entry::Entry;
use message::Message;
use std::fmt;
use store::Tables;

// A begin without its page.
fn fmt_begin<W: fmt::Write>(
    f: &mut fmt::Formatter<W>,
    term: u16,
    members: u16,
    before: u32,
) -> fmt::Result
    ensures { WritesOnOk W.write_str_gives f.old result (begin_text term members before) f.new }
{
    let members = MembersText(members);
    writeln!(f, "begin term {term} members {members} before {before}")
}

// A message without its entries or its page.
#[derive(Clone, Copy, PartialEq, Eq, Debug)]
struct HeadText(Message);

impl fmt::Display for HeadText {
    ghost output = { λ h. Some (head_text h.0) };

    fn fmt<W: fmt::Write>(&self, f: &mut fmt::Formatter<W>) -> fmt::Result {
        match self.0 {
            Message::Ask { term, ballot } => writeln!(f, "ask term {term} ballot {ballot}"),
            Message::Promise {
                term,
                ballot,
                from,
                had,
                count,
            } => writeln!(
                f,
                "promise term {term} ballot {ballot} from {from} had {had} entries {count}"
            ),
            Message::Part {
                term,
                ballot,
                place,
                count,
            } => writeln!(
                f,
                "part term {term} ballot {ballot} place {place} entries {count}"
            ),
            Message::Took {
                term,
                ballot,
                from,
                count,
            } => writeln!(
                f,
                "took term {term} ballot {ballot} from {from} entries {count}"
            ),
            Message::Begin {
                term,
                members,
                before,
            } => fmt_begin(f, term, members, before),
        }
    }
}

// So many entries of a log from a place on, or those that there are.
fn section(log: &[Entry], place: usize, count: usize) -> &[Entry]
    ensures { result.now ≡ take count (drop place log.now) }
{
    let rest = &log[place.min(log.len())..];
    &rest[..count.min(rest.len())]
}

// A message, and under it what it brought: the entries that it put into a log, or its store.
#[derive(Clone, Copy, Debug)]
pub struct MessageText<'a> {
    pub message: Message,
    pub log: &'a [Entry],
    pub store: Tables<'a>,
}

impl fmt::Display for MessageText<'_> {
    ghost output = { λ m. Some (head_text m.message ++ body_text m.message m.log.now (held m.store)) };

    fn fmt<W: fmt::Write>(&self, f: &mut fmt::Formatter<W>) -> fmt::Result {
        write!(f, "{}", HeadText(self.message))?;
        match self.message {
            Message::Ask { .. } | Message::Took { .. } => Ok(()),
            Message::Promise { count, .. } => {
                let brought = section(self.log, 0, usize::from(count));
                write!(f, "{}", EntriesText(brought))
            }
            Message::Part { place, count, .. } => {
                let brought = section(self.log, usize::from(place), usize::from(count));
                write!(f, "{}", EntriesText(brought))
            }
            Message::Begin { .. } => write!(f, "{}", StoreText(self.store)),
        }
    }
}
