// Bytes written in a text: two digits for each, the high one first.
#![tactic(auto)]

ghost use Rattle.std.specs.Prelude.{◌≡◌, ◌%◌, ◌/◌, ◌↔◌, IfOk, IsTrue, length, vec_items};
ghost use Rattle.std.specs.List.{AllPass};
ghost use Rattle.hex.specs.Hex.{is_hex_digit};
ghost use Rattle.wire.specs.Several.{several};
ghost use Rattle.hexes.specs.Hex.{ended_with, hex_of, pair_of};
ghost use Rattle.std.specs.Option.{option_map};

use std::alloc::{AllocError, Global};

// Whether a byte is a digit. All three ranges are asked and added up: a branch between numbers and letters can't be
// foreseen, and takes twice the time.
fn is_digit(byte: u8) -> bool
    ensures { result ≡ is_hex_digit byte }
{
    let number = (b'0' <= byte) & (byte <= b'9');
    let small = (b'a' <= byte) & (byte <= b'f');
    let large = (b'A' <= byte) & (byte <= b'F');
    u8::from(number) + u8::from(small) + u8::from(large) == 1
}

// Whether a word is pairs of digits and nothing else.
fn is_hex(word: &[u8]) -> bool
    ensures { IsTrue result ↔ ((length word.now % 2 ≡ 0) × AllPass is_hex_digit word.now) }
{
    word.len() % 2 == 0 && word.iter().all(|byte| is_digit(*byte))
}

// The bytes of a word that is pairs of digits.
fn decode(heap: Global, word: &[u8]) -> Result<Option<Vec<u8>>, AllocError>
    ensures { IfOk result (λ o. option_map vec_items o ≡ ended_with (several pair_of (length word.now / 2) word.now)) }
{
    // before memory is asked for: a word that writes no bytes needs none
    if !is_hex(word) {
        return Ok(None);
    }
    let mut bytes = vec![in heap; 0; word.len() / 2]?;
    match hex::decode_to_slice(word, bytes.as_mut_slice()) {
        Ok(()) => Ok(Some(bytes)),
        Err(_) => Ok(None),
    }
}

// The bytes that a word writes, if it is two digits for each of them; `-` stands for no bytes.
pub fn parse_hex(heap: Global, word: &[u8]) -> Result<Option<Vec<u8>>, AllocError>
    ensures { IfOk result (λ o. option_map vec_items o ≡ hex_of word.now) }
{
    if word == b"-".as_slice() {
        return Ok(Some(Vec::new(heap)));
    }
    decode(heap, word)
}
