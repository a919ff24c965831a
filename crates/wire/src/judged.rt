// What was read, and whether it is in range.
ghost use Rattle.std.specs.Prelude.{◌≡◌};
ghost use Rattle.wire.specs.Bytes.{seen};
ghost use Rattle.wire.specs.Judged.{accepted, ended};

use crate::fault::Fault;

// Something of the right form; `sound` if all of it is in range.
// It is no `Result`, since what is out of range is still needed: the form is judged to the last byte, and only then the range.
#[derive(Clone, Copy, PartialEq, Eq, Debug)]
pub struct Judged<T> {
    pub value: T,
    pub sound: bool,
}

impl<T: Copy> Judged<T> {
    // It, if all of it is in range.
    pub fn accept(self) -> Result<T, Fault>
        ensures { result ≡ accepted self }
    {
        if self.sound {
            Ok(self.value)
        } else {
            Err(Fault::OutOfRange)
        }
    }

    // What a function makes of it, in range if it is.
    pub fn map<U, F: FnOnce(T) -> U>(self, make: F) -> Judged<U>
        requires { F.pre make self.value }
        ensures value { F.post make self.value result.value }
        ensures sound { result.sound ≡ self.sound }
    {
        Judged {
            value: make(self.value),
            sound: self.sound,
        }
    }
}

// What some bytes are, if nothing stands behind it, or what is wrong with them: their form first, and then their range.
pub fn accept_whole<T: Copy>(read: Option<(Judged<T>, &[u8])>) -> Result<T, Fault>
    ensures { result ≡ ended (seen read.entry) }
{
    match read {
        Some((judged, rest)) if rest.is_empty() => judged.accept(),
        _ => Err(Fault::Malformed),
    }
}
