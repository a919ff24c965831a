// A page judged: its form, and whether all of it is in range.
ghost use Rattle.wire.specs.Bytes.{seen};
ghost use Rattle.page.specs.Page.{page_of};
ghost use Rattle.wire.specs.Several.{made};
ghost use Rattle.page.specs.Rows.{rising, rows_of};
ghost use Rattle.std.specs.Prelude.{◌≡◌};

use crate::rows::{Client, Row, Shelf, read_count};
use wire::{Fixed, Judged};

// How many rows there are, and then each: whether they rise, each in range.
fn judge_rows<const N: usize, R: Row<N>>(bytes: &[u8]) -> Option<(bool, &[u8])>
    ensures { seen result ≡ made (rising R.is_next R.place 0) (rows_of R.decoded R.LIMIT bytes.now) }
{
    let (count, mut rest) = read_count(bytes, R::LIMIT)?;
    let mut next = 0;
    let mut sound = true;
    for _ in 0..count {
        let (row, after) = R::read(rest)?;
        sound = sound && row.is_next(next);
        next = u32::from(row.place()) + 1;
        rest = after;
    }
    Some((sound, rest))
}

// The page at the front of some bytes, and those behind it; nothing if they are cut short, or a count is above its limit.
// Its value is how many entries stand before it.
pub fn judge_page(bytes: &[u8]) -> Option<(Judged<u32>, &[u8])>
    ensures { seen result ≡ page_of bytes.now }
{
    let (value, rest) = u32::read(bytes)?;
    let (shelves, rest) = judge_rows::<6, Shelf>(rest)?;
    let (clients, rest) = judge_rows::<9, Client>(rest)?;
    let sound = shelves && clients;
    Some((Judged { value, sound }, rest))
}
