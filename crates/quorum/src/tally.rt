// What each member said that it took of a ballot.
ghost use Rattle.std.specs.Prelude.{◌≡◌, ℕ, ◌<◌, ◌≤◌, true, false, if◌then◌else◌};
ghost use Rattle.quorum.specs.Tally.{counts, most_took, nobody, noted, raised, takers};

use crate::sets::is_most;
use std::cmp::Ordering;

// The ballot that the counts are for, and the most that each station said it took of it: a count for each of the
// sixteen there can be, in fixed memory.
#[derive(Clone, Copy, PartialEq, Eq, Debug)]
pub struct Tally {
    pub ballot: u32,
    pub took: [u16; 16],
}

impl Tally {
    // Nobody has taken anything of a ballot.
    pub fn new(ballot: u32) -> Tally
        ensures { result ≡ nobody ballot }
    {
        Tally {
            ballot,
            took: [0; 16],
        }
    }

    // A station said that it took so many: the highest that it said counts.
    fn raise(mut self, station: u8, count: u16) -> Tally
        ensures { result ≡ counts self.ballot (raised station count self.took) }
    {
        // By index: an array's `get_mut` says nothing of what the elements then are.
        if station < 16 {
            let i = usize::from(station);
            self.took[i] = self.took[i].max(count);
        }
        self
    }

    // A station said that it took so many of a ballot. A higher ballot starts the counts anew, a lower one doesn't count.
    pub fn note(self, ballot: u32, station: u8, count: u16) -> Tally
        ensures { result ≡ noted ballot station count self }
    {
        match ballot.cmp(&self.ballot) {
            Ordering::Less => self,
            Ordering::Equal => self.raise(station, count),
            Ordering::Greater => Tally::new(ballot).raise(station, count),
        }
    }

    // Those that took so many or more, as a set.
    fn takers(self, count: u16) -> u16
        ensures { result ≡ takers count self.took }
    {
        let mut set = 0;
        for took in self.took.iter().rev() {
            set = u16::from(count <= *took) + 2 * set;
        }
        set
    }

    // Whether most members took so many or more.
    pub fn most_took(self, members: u16, count: u16) -> bool
        ensures { result ≡ most_took members count self }
    {
        is_most(members, self.takers(count))
    }

    // The largest number up to `len` that most members took, found by trying each.
    pub fn largest(self, members: u16, len: u16) -> u16
        ensures within { result ≤ len }
        ensures taken { 0 < result → most_took members result self ≡ true }
        ensures largest { (k : ℕ) → result < k → k ≤ len → most_took members k self ≡ false }
    {
        // by a loop: a `find` over the range takes seven times as long
        for count in (1..=len).rev() {
            if self.most_took(members, count) {
                return count;
            }
        }
        0
    }
}
