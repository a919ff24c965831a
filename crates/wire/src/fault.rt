// What is wrong with an input, bytes or text.
ghost use Rattle.wire.specs.Fault.{number_of};
ghost use Rattle.std.specs.Prelude.{◌≡◌};

#[derive(Clone, Copy, PartialEq, Eq, Debug)]
pub enum Fault {
    // its form: cut short, too long, an unknown kind or word, no number, a number or count above its limit
    Malformed,
    // its range: of the right form, and it names nothing
    OutOfRange,
}

// Its number in the table of refusals.
impl From<Fault> for u8 {
    ghost from_gives = { λ fault number. number ≡ number_of fault };

    fn from(fault: Fault) -> u8 {
        match fault {
            Fault::Malformed => 1,
            Fault::OutOfRange => 2,
        }
    }
}
