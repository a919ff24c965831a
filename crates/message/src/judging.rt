// A message judged whole: its form to its last byte, then its range.
ghost use Rattle.wire.specs.Bytes.{seen};
ghost use Rattle.message.specs.Message.{body_of, judged_in, opened_in, seen_opened};
ghost use Rattle.std.specs.Prelude.{◌≡◌};

use crate::head::Message;
use crate::heads::read_head;
use entries::judge_entries;
use page::judge_page;
use wire::{Fault, Judged};

// Whether the entries or the page behind a head are in range, and the bytes behind them.
fn judge_body(message: Message, body: &[u8]) -> Option<(bool, &[u8])>
    ensures { seen result ≡ body_of message body.now }
{
    match message {
        Message::Ask { .. } | Message::Took { .. } => Some((true, body)),
        Message::Promise { count, .. } | Message::Part { count, .. } => judge_entries(body, count),
        Message::Begin { .. } => {
            let (page, rest) = judge_page(body)?;
            Some((page.sound, rest))
        }
    }
}

// A message's head and body, or what is wrong with the message: its form before its range.
// Not by `accept_whole`, which would take a function and a definition more, since the body goes out with the head.
pub fn open(bytes: &[u8]) -> Result<(Message, &[u8]), Fault>
    ensures { seen_opened result ≡ opened_in bytes.now }
{
    let (head, body) = read_head(bytes).ok_or(Fault::Malformed)?;
    let (sound, rest) = judge_body(head.value, body).ok_or(Fault::Malformed)?;
    if !rest.is_empty() {
        return Err(Fault::Malformed);
    }
    let message = Judged {
        value: (head.value, body),
        sound: head.sound && sound,
    };
    message.accept()
}

// The head of a message, or what is wrong with the message.
pub fn judge(bytes: &[u8]) -> Result<Message, Fault>
    ensures { result ≡ judged_in bytes.now }
{
    let (message, _) = open(bytes)?;
    Ok(message)
}
