// "Words are big-endian on the wire": the header words, read once from the bytes.
ghost use Rattle.std.specs.Prelude.{◌≡◌, drop};
ghost use Rattle.header.specs.Words.{byte_at, word_at, fourth_word, header_of};

use crate::kind::Kind;

// The header words; a fourth word that the header lacks is 0. These are also the words that a log keeps.
#[derive(Clone, Copy, Debug, Default, PartialEq, Eq)]
pub struct Header {
    pub w0: u32,
    pub w1: u32,
    pub w2: u32,
    pub w3: u32,
}

// The byte at `i`; a missing byte counts as 0.
pub fn byte(packet: &[u8], i: usize) -> u8
    ensures { result ≡ byte_at packet.now i }
{
    packet.get(i).copied().unwrap_or(0)
}

// The part of a packet after its first `n` bytes; nothing where it has no more.
pub fn after(packet: &[u8], n: usize) -> &[u8]
    ensures { result.now ≡ drop n packet.now }
{
    packet.get(n..).unwrap_or(&[])
}

// The big-endian word whose first byte stands at `at`; missing bytes count as 0.
#[tactic(auto, unfolding(crate::specs::Words::word_at))]
pub fn word(packet: &[u8], at: u8) -> u32
    ensures { result ≡ word_at packet.now at }
{
    let i = usize::from(at);
    match packet.get(i..i + 4) {
        Some([a, b, c, d]) => u32::from_be_bytes([*a, *b, *c, *d]),
        _ => u32::from_be_bytes([i, i + 1, i + 2, i + 3].map(|k| byte(packet, k))),
    }
}

// The fourth word, where byte 0 has bit 5; else 0.
#[tactic(auto, using(ground::proofs::Laws::Pick::decide))]
fn fourth_word(packet: &[u8]) -> u32
    ensures { result ≡ fourth_word packet.now }
{
    if Kind::from(byte(packet, 0)).has_four_words() {
        word(packet, 12)
    } else {
        0
    }
}

impl Header {
    // The header words of a packet, missing bytes counted as 0.
    pub fn read(packet: &[u8]) -> Header
        ensures { result ≡ header_of packet.now }
    {
        Header {
            w0: word(packet, 0),
            w1: word(packet, 4),
            w2: word(packet, 8),
            w3: fourth_word(packet),
        }
    }
}
