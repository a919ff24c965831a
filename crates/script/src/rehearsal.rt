// A script played from its first line to its last.
ghost use Rattle.script.specs.Laws.{OnlyRequests};
ghost use Rattle.script.specs.Rehearsal.{after, answered, is_comment, is_passed, printed, rehearsed, transcript, turned};
ghost use Rattle.std.specs.Prelude.{◌≡◌, ◌++◌, IfOk, string_bytes, OnOk};
ghost use Rattle.store.specs.Tables.{SameLoans, held_mut};
ghost use Rattle.text.specs.Lines.{lines};

use command::{Command, is_blank};
use print::{Answer, StoreText};
use std::alloc::{AllocError, Global};
use std::fmt::Write;
use store::{CLIENTS, SHELVES, TablesMut};
use wire::Fault;

// Whether a line is a comment.
fn is_comment(line: &[u8]) -> bool
    ensures { result ≡ is_comment line.now }
{
    matches!(line, [b'#', ..])
}

// Whether a line is passed over: a comment, or no word in it.
fn is_passed_over(line: &[u8]) -> bool
    ensures { result ≡ is_passed line.now }
{
    is_comment(line) || is_blank(line)
}

// Does what a line commands, and says what is to be answered.
fn carry_out(command: Result<Command, Fault>, store: &mut TablesMut<'_>) -> Answer
    ensures answer { result ≡ answered command (held_mut store.old) }
    ensures store { held_mut store.new ≡ turned command (held_mut store.old) }
    ensures loans { SameLoans store.old store.new }
{
    match command {
        Ok(Command::Do(request)) => match request.apply(store) {
            Ok(word) => Answer::Word(word),
            Err(refusal) => Answer::Refused(refusal.into()),
        },
        Ok(Command::Show) => Answer::Show,
        Err(fault) => Answer::Refused(fault.into()),
    }
}

// Plays one line, and prints its answer, and under `show` the store.
fn play(
    out: &mut String,
    number: usize,
    line: &[u8],
    store: &mut TablesMut<'_>,
) -> Result<(), AllocError>
    ensures store { held_mut store.new ≡ after line.now (held_mut store.old) }
    ensures loans { SameLoans store.old store.new }
    ensures text { OnOk result (string_bytes out.new ≡ string_bytes out.old ++ printed number line.now (held_mut store.old)) }
{
    if is_passed_over(line) {
        return Ok(());
    }
    let answer = carry_out(Command::parse(line), store);
    writeln!(out, "{number} {answer}")?;
    match answer {
        Answer::Word(_) | Answer::Refused(_) => Ok(()),
        Answer::Show => write!(out, "{}", StoreText(store.as_tables())),
    }
}

// Plays the lines of a script one after the other.
fn play_all(heap: Global, script: &[u8], store: &mut TablesMut<'_>) -> Result<String, AllocError>
    ensures { IfOk result (λ out. string_bytes out ≡ transcript 1 (held_mut store.old) (lines script.now)) }
{
    let mut out = String::new(heap);
    for (i, line) in script.split(|byte| *byte == b'\n').enumerate() {
        play(&mut out, i + 1, line, store)?;
    }
    Ok(out)
}

// Plays a script from an empty store on: what it prints.
pub fn rehearse(heap: Global, script: &[u8]) -> Result<String, AllocError>
    ensures { IfOk result (λ out. string_bytes out ≡ rehearsed script.now) }
{
    let mut shelves = [0; SHELVES];
    let mut lasts = [0; CLIENTS];
    let mut words = [0; CLIENTS];
    let mut store = TablesMut {
        shelves: &mut shelves,
        lasts: &mut lasts,
        words: &mut words,
    };
    play_all(heap, script, &mut store)
}

// A script's store is what its requests make of it.
#[tactic(auto, using(crate::proofs::Leaves::only_requests))]
pub fn only_requests_count()
    ensures { OnlyRequests }
{}
