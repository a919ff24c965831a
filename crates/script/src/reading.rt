// `read HEX`: bytes as a message.
ghost use Rattle.print.specs.Messages.{message_text};
ghost use Rattle.store.specs.Tables.{held};
ghost use Rattle.script.specs.Reading.{fault_text, read_line, read_text};
ghost use Rattle.std.specs.Prelude.{◌≡◌, ◌++◌, string_bytes, OnOk};

use command::is_blank;
use entry::Entry;
use hexes::parse_hex;
use message::{Message, Unread, read};
use print::{Answer, MessageText};
use std::alloc::{AllocError, Global};
use std::fmt::Write;
use store::{CLIENTS, SHELVES, Tables, TablesMut};
use text::split_word;
use wire::Fault;

// Prints what is wrong with a line.
fn push_fault(out: &mut String, line: usize, fault: Fault) -> Result<(), AllocError>
    ensures { OnOk result (string_bytes out.new ≡ string_bytes out.old ++ fault_text line fault) }
{
    writeln!(out, "{line} {}", Answer::Refused(fault.into()))
}

// Prints a message, and what it brought into a log or a store.
fn push_message(
    out: &mut String,
    line: usize,
    message: Message,
    log: &[Entry],
    store: Tables<'_>,
) -> Result<(), AllocError>
    ensures { OnOk result (string_bytes out.new ≡ string_bytes out.old ++ message_text line message log.now (held store.entry)) }
{
    let text = MessageText {
        message,
        log,
        store,
    };
    write!(out, "{line} {text}")
}

// Prints a message with what it brings, or what is wrong with it.
fn push_read(out: &mut String, line: usize, bytes: &[u8]) -> Result<(), AllocError>
    ensures { OnOk result (string_bytes out.new ≡ string_bytes out.old ++ read_text line bytes.now) }
{
    // memory of its own, here and in `rehearse`: a call can lend its arrays on, but can't hand out tables of them
    let mut log = [Entry::Close { members: 0 }; 4096];
    let mut shelves = [0; SHELVES];
    let mut lasts = [0; CLIENTS];
    let mut words = [0; CLIENTS];
    let mut store = TablesMut {
        shelves: &mut shelves,
        lasts: &mut lasts,
        words: &mut words,
    };
    match read(bytes, &mut log, &mut store) {
        Ok(message) => push_message(out, line, message, &log, store.as_tables()),
        Err(Unread::Refused(fault)) => push_fault(out, line, fault),
        Err(Unread::NoRoom) => unreachable(),
    }
}

// Prints what the words behind `read` write.
pub fn play_read(heap: Global, out: &mut String, line: usize, text: &[u8]) -> Result<(), AllocError>
    ensures { OnOk result (string_bytes out.new ≡ string_bytes out.old ++ read_line line text.now) }
{
    let (word, rest) = split_word(text);
    if !is_blank(rest) {
        return push_fault(out, line, Fault::Malformed);
    }
    match parse_hex(heap, word)? {
        Some(bytes) => push_read(out, line, bytes.as_slice()),
        None => push_fault(out, line, Fault::Malformed),
    }
}
