// Whether entries that come keep what is sure.
ghost use Rattle.std.specs.Prelude.{◌≡◌, ◌+◌, slice_index_or};
ghost use Rattle.entry.specs.declared.entry.Entry.TheVariants.{Close};
ghost use Rattle.steps.specs.Heads.{agree, keeps_sure};
ghost use Rattle.steps.specs.Same.{same_entry};

use crate::facts::entry_at;
use crate::head::Head;
use entry::Entry;

// Whether entry i of some entries is the same as the one of a log that many places on.
fn same_at(log: &[Entry], place: u16, entries: &[Entry], i: u16) -> bool
    ensures { result ≡ same_entry (slice_index_or log.now (place + i) (Close 0)) (slice_index_or entries.now i (Close 0)) }
{
    let here = entry_at(log, usize::from(place) + usize::from(i));
    here == entry_at(entries, usize::from(i))
}

// Whether the first `count` of some entries are the same as those of a log from a place on.
pub fn agrees(log: &[Entry], place: u16, entries: &[Entry], count: u16) -> bool
    ensures { result ≡ agree count place log.now entries.now }
{
    // not `==` of slices: behind its end a log counts as closed to nobody; nor `all`, whose closure would say that of one place only
    for i in 0..count {
        if !same_at(log, place, entries, i) {
            return false;
        }
    }
    true
}

impl Head {
    // Whether entries laid from a place on keep what is sure: they reach that far, and are the same where they overlap it.
    pub fn keeps_sure(self, place: u16, entries: &[Entry], log: &[Entry]) -> bool
        ensures { result ≡ keeps_sure place entries.now log.now self }
    {
        let overlap = self.sure.saturating_sub(place);
        usize::from(overlap) <= entries.len() && agrees(log, place, entries, overlap)
    }
}
