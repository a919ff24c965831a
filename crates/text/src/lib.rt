// Lines, words and numbers in a text of bytes.
#![tactic(auto)]

ghost use Rattle.std.specs.Prelude.{◌≡◌, ◌<◌, ◌≤◌, length, IfSome};
ghost use Rattle.text.specs.Text.{after_word, beyond, first_word, number_up_to, trimmed, up_to};

// What stands before the first `mark`, and what stands behind it; without one, all of it and nothing.
pub fn split_once(bytes: &[u8], mark: u8) -> (&[u8], &[u8])
    ensures front { result.0.now ≡ up_to mark bytes.now }
    ensures back { result.1.now ≡ beyond mark bytes.now }
    ensures shorter { 0 < length bytes.now → length result.1.now < length bytes.now }
{
    match bytes.iter().position(|byte| *byte == mark) {
        Some(at) => (&bytes[..at], &bytes[at + 1..]),
        None => (bytes, &[]),
    }
}

// The text from its first byte that is no space.
fn trim_start(bytes: &[u8]) -> &[u8]
    ensures { result.now ≡ trimmed bytes.now }
{
    let spaces = bytes.iter().take_while(|byte| **byte == b' ').count();
    &bytes[spaces..]
}

// The first word of a line, empty if there is none, and what stands behind it.
pub fn split_word(line: &[u8]) -> (&[u8], &[u8])
    ensures word { result.0.now ≡ first_word line.now }
    ensures rest { result.1.now ≡ after_word line.now }
{
    split_once(trim_start(line), b' ')
}

// A word as a decimal number of at most `max`: one digit or more, zeros in front allowed, no sign.
pub fn parse_number(word: &[u8], max: u32) -> Option<u32>
    ensures value { result ≡ number_up_to max word.now }
    ensures bound { IfSome result (λ n. n ≤ max) }
{
    if word.is_empty() {
        return None;
    }
    // sums of 64 bits, looked at one digit later: `to_digit` and checked sums take twice the time
    let limit = u64::from(max);
    let mut value = 0;
    for byte in word {
        if value > limit || !byte.is_ascii_digit() {
            return None;
        }
        value = 10 * value + u64::from(*byte - b'0');
    }
    if value > limit {
        None
    } else {
        Some(value as u32)
    }
}
