// The rewritten fields of a packet that crosses: each says which field becomes what, and keeps every other bit.
ghost use Rattle.std.specs.Prelude.{◌≡◌};
ghost use Rattle.header.specs.Rewrite.{low_word_for, in64, in32, readdressed, renamed, returned};

use crate::field::with_field;
use crate::words::Header;

impl Header {
    // A request with another requester ID.
    pub fn renamed(self, id: u16) -> Header
        ensures { result ≡ renamed self id }
    {
        Header {
            w1: with_field(self.w1, 16, 16, u32::from(id)),
            ..self
        }
    }

    // A completion with another requester ID and another completer ID.
    pub fn returned(self, id: u16, completer: u16) -> Header
        ensures { result ≡ returned self id completer }
    {
        Header {
            w1: with_field(self.w1, 16, 16, u32::from(completer)),
            w2: with_field(self.w2, 16, 16, u32::from(id)),
            ..self
        }
    }

    // The low address word for another address: the two bits below the address are kept.
    fn low_word_for(self, a: u64) -> u32
        ensures { result ≡ low_word_for self a }
    {
        with_field(self.low_word(), 2, 30, (a / 4 % 0x4000_0000) as u32)
    }

    // The request in a 64-bit header.
    fn in_64(self, a: u64) -> Header
        ensures { result ≡ in64 self a }
    {
        Header {
            w0: with_field(self.w0, 29, 1, 1),
            w2: (a / 0x1_0000_0000) as u32,
            w3: self.low_word_for(a),
            ..self
        }
    }

    // The request in a 32-bit header.
    fn in_32(self, a: u64) -> Header
        ensures { result ≡ in32 self a }
    {
        Header {
            w0: with_field(self.w0, 29, 1, 0),
            w2: self.low_word_for(a),
            w3: 0,
            ..self
        }
    }

    // A request with another address, in a 64-bit header exactly if that is 2^32 or more.
    #[tactic(auto, using(ground::proofs::Laws::Pick::decide), unfolding(crate::specs::Rewrite::readdressed))]
    pub fn readdressed(self, a: u64) -> Header
        ensures { result ≡ readdressed self a }
    {
        if 0x1_0000_0000 <= a {
            self.in_64(a)
        } else {
            self.in_32(a)
        }
    }
}
