// "Headers used": the six kinds of packet, as byte 0 of a header has them.
ghost use Rattle.std.specs.Prelude.{◌≡◌};
ghost use Rattle.header.specs.Kind.{
  is_read,
  is_write,
  is_completion,
  is_carried,
  has_data,
  has_four_words,
  header_bytes,
};

#[derive(Clone, Copy, Debug, PartialEq, Eq)]
pub struct Kind {
    pub byte: u8,
}

// The kind that a header's byte 0 names, carried or not.
impl From<u8> for Kind {
    ghost from_gives = { λ byte kind. kind.byte ≡ byte };

    fn from(byte: u8) -> Kind {
        Kind { byte }
    }
}

impl Kind {
    pub const READ_32: Kind = Kind { byte: 0x00 };

    pub const READ_64: Kind = Kind { byte: 0x20 };

    pub const WRITE_32: Kind = Kind { byte: 0x40 };

    pub const WRITE_64: Kind = Kind { byte: 0x60 };

    pub const COMPLETION: Kind = Kind { byte: 0x0A };

    pub const COMPLETION_WITH_DATA: Kind = Kind { byte: 0x4A };

    // A memory read, with a 32 or a 64-bit address.
    pub fn is_read(self) -> bool
        ensures { result ≡ is_read self.byte }
    {
        matches!(self, Kind::READ_32 | Kind::READ_64)
    }

    // A memory write, with a 32 or a 64-bit address.
    pub fn is_write(self) -> bool
        ensures { result ≡ is_write self.byte }
    {
        matches!(self, Kind::WRITE_32 | Kind::WRITE_64)
    }

    // A completion, without data or with.
    pub fn is_completion(self) -> bool
        ensures { result ≡ is_completion self.byte }
    {
        matches!(self, Kind::COMPLETION | Kind::COMPLETION_WITH_DATA)
    }

    // One of the six.
    pub fn is_carried(self) -> bool
        ensures { result ≡ is_carried self.byte }
    {
        self.is_read() | self.is_write() | self.is_completion()
    }

    // Data follows the header.
    pub fn has_data(self) -> bool
        ensures { result ≡ has_data self.byte }
    {
        self.is_write() | (self == Kind::COMPLETION_WITH_DATA)
    }

    // The header has a fourth word: byte 0 has bit 5.
    pub fn has_four_words(self) -> bool
        ensures { result ≡ has_four_words self.byte }
    {
        (self.byte >> 5) & 1 == 1
    }

    // The header's length in bytes, 12 or 16.
    #[tactic(auto, using(ground::proofs::Laws::Pick::decide))]
    pub fn header_bytes(self) -> usize
        ensures { result ≡ header_bytes self.byte }
    {
        if self.has_four_words() { 16 } else { 12 }
    }
}
