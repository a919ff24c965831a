// Entries read from bytes, one behind the other.
ghost use Rattle.wire.specs.Bytes.{seen};
ghost use Rattle.wire.specs.Several.{seen_rest};
ghost use Rattle.entries.specs.Entries.{judged_of, loaded_into, read_into, read_rest};
ghost use Rattle.std.specs.Prelude.{◌≡◌};

use entry::{Entry, read_entry};

// Whether `count` entries stand at the front of some bytes; if so whether all are in range, and the bytes behind them.
pub fn judge_entries(bytes: &[u8], count: u16) -> Option<(bool, &[u8])>
    ensures { seen result ≡ judged_of count bytes.now }
{
    let mut sound = true;
    let mut rest = bytes;
    for _ in 0..count {
        let (found, after) = read_entry(rest)?;
        sound &= found.sound;
        rest = after;
    }
    Some((sound, rest))
}

// Reads `count` entries, in range or not, into a log from its first place on: the bytes behind them.
// Nothing of a log that is too short changes; where fewer entries stand in the bytes, those are read.
pub fn load_entries<'a>(bytes: &'a [u8], count: u16, log: &mut [Entry]) -> Option<&'a [u8]>
    ensures rest { seen_rest result ≡ read_rest count log.old bytes.now }
    ensures log { log.new ≡ loaded_into count log.old bytes.now }
{
    let places = usize::from(count);
    if places > log.len() {
        return None;
    }
    let mut rest = bytes;
    for place in &mut log[..places] {
        let (found, after) = read_entry(rest)?;
        *place = found.value;
        rest = after;
    }
    Some(rest)
}

// Reads `count` entries into a log from its first place on: the bytes behind them.
// Nothing changes where the log is too short or the entries aren't there.
pub fn read_entries<'a>(bytes: &'a [u8], count: u16, log: &mut [Entry]) -> Option<&'a [u8]>
    ensures rest { seen_rest result ≡ read_rest count log.old bytes.now }
    ensures log { log.new ≡ read_into count log.old bytes.now }
{
    if usize::from(count) > log.len() {
        return None;
    }
    judge_entries(bytes, count)?;
    load_entries(bytes, count, log)
}
