// What always takes the same number of bytes.
ghost use Rattle.std.specs.Prelude.{◌≡◌, ℕ, List};
ghost use Rattle.wire.specs.Bytes.{Read, four, four_bytes, one, one_byte, seen, two, two_bytes};

// Something of N bytes, high byte first.
pub trait Fixed<const N: usize>: Copy {
    ghost decoded: { List ℕ → Read Self };

    ghost encoded: { Self → List ℕ };

    // The one at the front of some bytes, and those behind it.
    fn read(bytes: &[u8]) -> Option<(Self, &[u8])>
        ensures { seen result ≡ decoded bytes.now };

    fn bytes(self) -> [u8; N]
        ensures { result ≡ encoded self };
}

impl Fixed<1> for u8 {
    ghost decoded = { one };

    ghost encoded = { one_byte };

    fn read(bytes: &[u8]) -> Option<(u8, &[u8])> {
        let (byte, rest) = bytes.split_first()?;
        Some((*byte, rest))
    }

    fn bytes(self) -> [u8; 1] {
        [self]
    }
}

impl Fixed<2> for u16 {
    ghost decoded = { two };

    ghost encoded = { two_bytes };

    fn read(bytes: &[u8]) -> Option<(u16, &[u8])> {
        let (number, rest) = bytes.split_first_chunk()?;
        Some((u16::from_be_bytes(*number), rest))
    }

    fn bytes(self) -> [u8; 2] {
        u16::to_be_bytes(self)
    }
}

impl Fixed<4> for u32 {
    ghost decoded = { four };

    ghost encoded = { four_bytes };

    fn read(bytes: &[u8]) -> Option<(u32, &[u8])> {
        let (number, rest) = bytes.split_first_chunk()?;
        Some((u32::from_be_bytes(*number), rest))
    }

    fn bytes(self) -> [u8; 4] {
        u32::to_be_bytes(self)
    }
}
