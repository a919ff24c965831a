// What a line of a script commands.
ghost use Rattle.command.specs.Command.{ask_of, command_of, ended, field_of, last_of, request_of};
ghost use Rattle.std.specs.Prelude.{◌≡◌, ◌≤◌, IfOk};

use store::{Ask, Request};
use text::{parse_number, split_word};
use wire::Fault;

#[derive(Clone, Copy, PartialEq, Eq, Debug)]
pub enum Command {
    Do(Request),
    Show,
}

// A word as a number of at most `max`.
fn parse_field(word: &[u8], max: u32) -> Result<u32, Fault>
    ensures value { result ≡ field_of max word.now }
    ensures bound { IfOk result (λ n. n ≤ max) }
{
    parse_number(word, max).ok_or(Fault::Malformed)
}

// Whether no word is left.
pub fn is_blank(line: &[u8]) -> bool
    ensures { result ≡ ended line.now }
{
    split_word(line).0.is_empty()
}

// The number that is all a line still has.
fn parse_last(line: &[u8]) -> Result<u32, Fault>
    ensures { result ≡ last_of line.now }
{
    let (word, line) = split_word(line);
    let number = parse_field(word, u32::MAX)?;
    if is_blank(line) {
        Ok(number)
    } else {
        Err(Fault::Malformed)
    }
}

// `put KEY VALUE`, `take KEY AMOUNT` or `look KEY`.
fn parse_ask(line: &[u8]) -> Result<Ask, Fault>
    ensures { result ≡ ask_of line.now }
{
    let (kind, line) = split_word(line);
    let (word, line) = split_word(line);
    let key = parse_field(word, u16::MAX.into())? as u16;
    match kind {
        b"look" if is_blank(line) => Ok(Ask::Look { key }),
        b"put" => {
            let value = parse_last(line)?;
            Ok(Ask::Put { key, value })
        }
        b"take" => {
            let amount = parse_last(line)?;
            Ok(Ask::Take { key, amount })
        }
        _ => Err(Fault::Malformed),
    }
}

// `CLIENT NUMBER` and what is asked, for a shelf that there is.
fn parse_request(line: &[u8]) -> Result<Request, Fault>
    ensures { result ≡ request_of line.now }
{
    let (word, line) = split_word(line);
    let client = parse_field(word, u8::MAX.into())? as u8;
    let (word, line) = split_word(line);
    let number = parse_field(word, u32::MAX)?;
    let ask = parse_ask(line)?;
    if !ask.names_shelf() {
        return Err(Fault::OutOfRange);
    }
    Ok(Request {
        client,
        number,
        ask,
    })
}

impl Command {
    // What a line commands: `do REQUEST` or `show`.
    pub fn parse(line: &[u8]) -> Result<Command, Fault>
        ensures { result ≡ command_of line.now }
    {
        let (name, line) = split_word(line);
        match name {
            b"do" => Ok(Command::Do(parse_request(line)?)),
            b"show" if is_blank(line) => Ok(Command::Show),
            _ => Err(Fault::Malformed),
        }
    }
}
