// "Headers used": every field of a header by its name, as the definitions of specs/Fields.antt have them.
ghost use Rattle.std.specs.Prelude.{◌≡◌};
ghost use Rattle.header.specs.Kind.{is_read, is_completion, has_four_words, header_bytes};
ghost use Rattle.header.specs.Fields.{
  kind,
  traffic_class,
  has_digest,
  is_poisoned,
  attributes,
  address_type,
  dwords,
  data_bytes,
  total_bytes,
  requester_id,
  tag,
  last_enables,
  first_enables,
  high_word,
  low_word,
  address,
  byte_count_field,
  completion_requester_id,
  completion_tag,
  lower_address_field,
};

use crate::field::field;
use crate::kind::Kind;
use crate::words::Header;

// Word 0, of every packet.
impl Header {
    // "kind in 31:24"
    pub fn kind(self) -> Kind
        ensures { result.byte ≡ kind self }
    {
        Kind::from(field(self.w0, 24, 8) as u8)
    }

    // The packet is a memory read.
    pub fn is_read(self) -> bool
        ensures { result ≡ is_read (kind self) }
    {
        self.kind().is_read()
    }

    // The packet is a completion.
    pub fn is_completion(self) -> bool
        ensures { result ≡ is_completion (kind self) }
    {
        self.kind().is_completion()
    }

    // The header has a fourth word.
    pub fn has_four_words(self) -> bool
        ensures { result ≡ has_four_words (kind self) }
    {
        self.kind().has_four_words()
    }

    // How long the header is, in bytes.
    pub fn header_bytes(self) -> usize
        ensures { result ≡ header_bytes (kind self) }
    {
        self.kind().header_bytes()
    }

    // "TC 22:20"
    pub fn traffic_class(self) -> u8
        ensures { result ≡ traffic_class self }
    {
        field(self.w0, 20, 3) as u8
    }

    // "TD 15": a digest would follow
    pub fn has_digest(self) -> bool
        ensures { result ≡ has_digest self }
    {
        field(self.w0, 15, 1) == 1
    }

    // "EP 14"
    pub fn is_poisoned(self) -> bool
        ensures { result ≡ is_poisoned self }
    {
        field(self.w0, 14, 1) == 1
    }

    // "Attr 13:12"
    pub fn attributes(self) -> u8
        ensures { result ≡ attributes self }
    {
        field(self.w0, 12, 2) as u8
    }

    // "AT 11:10"
    pub fn address_type(self) -> u8
        ensures { result ≡ address_type self }
    {
        field(self.w0, 10, 2) as u8
    }

    // "Length 9:0 in dwords, 0 meaning 1,024"
    #[tactic(auto, using(ground::proofs::Laws::Pick::decide))]
    pub fn dwords(self) -> u16
        ensures { result ≡ dwords self }
    {
        let n = field(self.w0, 0, 10);
        if n == 0 { 1024 } else { n as u16 }
    }

    // How many bytes of data follow the header.
    #[tactic(auto, using(ground::proofs::Laws::Pick::decide))]
    pub fn data_bytes(self) -> usize
        ensures { result ≡ data_bytes self }
    {
        if self.kind().has_data() {
            4 * usize::from(self.dwords())
        } else {
            0
        }
    }

    // How long the whole packet is, in bytes.
    #[tactic(auto, using(crate::proofs::Laws::Lengths::header_bounds, crate::proofs::Laws::Lengths::data_at_most))]
    pub fn total_bytes(self) -> usize
        ensures { result ≡ total_bytes self }
    {
        self.header_bytes() + self.data_bytes()
    }
}

// The words of a request.
impl Header {
    // "requester ID 31:16"
    pub fn requester_id(self) -> u16
        ensures { result ≡ requester_id self }
    {
        field(self.w1, 16, 16) as u16
    }

    // "tag 15:8"
    pub fn tag(self) -> u8
        ensures { result ≡ tag self }
    {
        field(self.w1, 8, 8) as u8
    }

    // "last enables 7:4"
    pub fn last_enables(self) -> u8
        ensures { result ≡ last_enables self }
    {
        field(self.w1, 4, 4) as u8
    }

    // "first enables 3:0"
    pub fn first_enables(self) -> u8
        ensures { result ≡ first_enables self }
    {
        field(self.w1, 0, 4) as u8
    }

    // The high address word, 0 where the header has none.
    #[tactic(auto, using(ground::proofs::Laws::Pick::decide))]
    pub fn high_word(self) -> u32
        ensures { result ≡ high_word self }
    {
        if self.has_four_words() { self.w2 } else { 0 }
    }

    // The low address word.
    #[tactic(auto, using(ground::proofs::Laws::Pick::decide))]
    pub fn low_word(self) -> u32
        ensures { result ≡ low_word self }
    {
        if self.has_four_words() {
            self.w3
        } else {
            self.w2
        }
    }

    // The address; the lowest two bits of its word are no part of it.
    pub fn address(self) -> u64
        ensures { result ≡ address self }
    {
        u64::from(self.high_word()) * 0x1_0000_0000 + u64::from(self.low_word()) / 4 * 4
    }
}

// The words of a completion.
impl Header {
    // "byte count 11:0", as it is written: 0 is 4,096
    pub fn byte_count_field(self) -> u16
        ensures { result ≡ byte_count_field self }
    {
        field(self.w1, 0, 12) as u16
    }

    // "requester ID 31:16"
    pub fn completion_requester_id(self) -> u16
        ensures { result ≡ completion_requester_id self }
    {
        field(self.w2, 16, 16) as u16
    }

    // "tag 15:8"
    pub fn completion_tag(self) -> u8
        ensures { result ≡ completion_tag self }
    {
        field(self.w2, 8, 8) as u8
    }

    // "lower address 6:0"
    pub fn lower_address_field(self) -> u8
        ensures { result ≡ lower_address_field self }
    {
        field(self.w2, 0, 7) as u8
    }
}
