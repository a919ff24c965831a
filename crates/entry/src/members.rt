// The members of a council, listed in bytes, as a set of bits.
ghost use Rattle.std.specs.Prelude.{◌≡◌, ◌<◌, ◌≤◌, not, ◌&&◌, length, take, ◌==◌, nat_eq};
ghost use Rattle.std.specs.Cmp.{on_equiv, on_per, partial_equiv_from_equiv};
ghost use Rattle.std.specs.Cmp.Lexicographic.{nat_list_eq_equiv, pointwise};
ghost use Rattle.wire.specs.Bytes.{seen};
ghost use Rattle.entry.specs.Members.{listed, members_in, members_of, visited, walked};

use std::marker::Model;
use wire::{Fixed, Judged, read_slice};

// One station visited: it is a member if it comes next in the list.
fn visit(set: u16, list: &[u8], station: u8) -> (u16, &[u8])
    requires { station < 16 }
    ensures { walked result.0 result.1.now ≡ visited station (walked set list.now) }
{
    match list.split_first() {
        Some((member, after)) if *member == station => (set | (1 << station), after),
        _ => (set, list),
    }
}

// Whether there was something, and nothing of it is left.
fn is_used_up(list: &[u8], rest: &[u8]) -> bool
    ensures { result ≡ (length rest.now == 0 && not (length list.now == 0)) }
{
    rest.is_empty() && !list.is_empty()
}

// The members that a list names, found by visiting the stations in turn: the list is sound if that uses it up.
fn gather(list: &[u8]) -> Judged<u16>
    ensures { result ≡ members_in list.now }
{
    let mut set = 0;
    let mut rest = list;
    for station in 0..16 {
        (set, rest) = visit(set, rest, station);
    }
    Judged {
        value: set,
        sound: is_used_up(list, rest),
    }
}

// A council's members as a set: how many there are, at most 16, and then each.
// They are sound if they are listed rising, each a station, and at least one.
pub fn read_members(bytes: &[u8]) -> Option<(Judged<u16>, &[u8])>
    ensures { seen result ≡ members_of bytes.now }
{
    let (count, rest) = u8::read(bytes)?;
    if count > 16 {
        return None;
    }
    let (list, rest) = read_slice(rest, usize::from(count))?;
    Some((gather(list), rest))
}

// The members of a set, rising: the first `len` of the stations.
#[derive(Clone, Copy, Debug)]
pub struct Listing {
    pub stations: [u8; 16],
    pub len: usize,
}

impl Model for Listing {
    ghost use Rattle.std.specs.Prelude.{take};
    ghost use Rattle.entry.specs.Listing.{Listing as Listed};

    ghost Value = { Listed };

    ghost view = { λ l. record { stations = l.stations; len = l.len; items = take l.len l.stations } };

    ghost inverse = { λ l. record { stations = l.stations; len = l.len } };
}

impl Listing {
    // How many stations are listed: all sixteen, if `len` says more.
    pub fn len(&self) -> usize
        ensures value { result ≡ length self.now.items }
        ensures fits { result ≤ 16 }
    {
        self.len.min(self.stations.len())
    }

    // The stations that are listed.
    pub fn as_slice(&self) -> &[u8]
        ensures value { result.now ≡ self.now.items }
        ensures fits { length result.now ≤ 16 }
    {
        &self.stations[..self.len()]
    }
}

// Two listings are equal if the same stations are listed: the places behind don't count.
impl PartialEq for Listing {
    ghost eq = { λ a b. pointwise nat_eq a.items b.items };

    ghost laws = { on_per (λ l. l.items) (partial_equiv_from_equiv nat_list_eq_equiv) };

    fn eq(&self, other: &Self) -> bool {
        self.as_slice() == other.as_slice()
    }
}

impl Eq for Listing {
    ghost laws = { on_equiv (λ l. l.items) nat_list_eq_equiv };
}

// The members of a set, rising.
pub fn list_members(set: u16) -> Listing
    ensures listed { result.items ≡ listed set }
    ensures within { length result.items ≤ 16 }
    ensures front { take result.len result.stations ≡ listed set }
    ensures len_within { result.len ≤ 16 }
    ensures count { result.len ≡ length (listed set) }
{
    let mut stations = [0; 16];
    let mut len = 0;
    let mut left = set;
    for station in 0..16 {
        if left % 2 == 1 {
            stations[len] = station;
            len += 1;
        }
        left /= 2;
    }
    Listing { stations, len }
}
