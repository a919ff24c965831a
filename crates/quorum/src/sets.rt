// Sets of stations: bit j says whether station j is in it.
ghost use Rattle.quorum.specs.Sets.{inserted, is_in, is_most};
ghost use Rattle.std.specs.Prelude.{◌≡◌};

// Whether a station is in a set.
pub fn is_member(set: u16, station: u8) -> bool
    ensures { result ≡ is_in set station }
{
    station < 16 && (set >> station) % 2 == 1
}

// A set with a station more; what is no station changes nothing.
pub fn insert(set: u16, station: u8) -> u16
    ensures { result ≡ inserted set station }
{
    if station < 16 {
        set | (1 << station)
    } else {
        set
    }
}

// Whether more than half of the members answered.
pub fn is_most(members: u16, answered: u16) -> bool
    ensures { result ≡ is_most members answered }
{
    members.count_ones() / 2 < (members & answered).count_ones()
}
