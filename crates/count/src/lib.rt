// "Byte count" and lower address of a read, and the completion that answers one which is refused.
#![tactic(auto)]

ghost use Rattle.std.specs.Prelude.{◌≡◌, ◌<◌, ◌^◌};
ghost use Rattle.ground.specs.Field.{place};
ghost use Rattle.count.specs.Count.{
  enabled,
  lowest,
  highest,
  byte_count_of,
  byte_count,
  lower_address,
  answer_word_0,
  answer_word_1,
  answer_word_2,
  answer_to,
};

use header::kind::Kind;
use header::words::Header;

// The status of an answer to a refused read.
const UNSUPPORTED_REQUEST: u32 = 1;

// Byte `i` of a dword is enabled.
fn enabled(i: u32, e: u8) -> bool
    requires { i < 4 }
    ensures { result ≡ enabled i e }
{
    (e >> i) & 1 == 1
}

// The place of the lowest enabled byte; 0 where none is.
#[tactic(auto, unfolding(ground::specs::Pick::pick))]
fn lowest(e: u8) -> u8
    ensures { result ≡ lowest e }
{
    if enabled(0, e) {
        return 0;
    }
    if enabled(1, e) {
        return 1;
    }
    if enabled(2, e) {
        return 2;
    }
    if enabled(3, e) { 3 } else { 0 }
}

// The place of the highest enabled byte; 0 where none is.
#[tactic(auto, unfolding(ground::specs::Pick::pick))]
fn highest(e: u8) -> u8
    ensures { result ≡ highest e }
{
    if enabled(3, e) {
        return 3;
    }
    if enabled(2, e) {
        return 2;
    }
    if enabled(1, e) { 1 } else { 0 }
}

// The byte count of `n` dwords with these enables.
#[tactic(auto, using(crate::proofs::Laws::Count::places), unfolding(crate::specs::Count::byte_count_of, ground::specs::Pick::pick))]
fn count_of(n: u16, first: u8, last: u8) -> u16
    requires { (0 < n) × (n < 2 ^ 11) }
    ensures { result ≡ byte_count_of n first last }
{
    if n == 1 {
        u16::from(highest(first) - lowest(first)) + 1
    } else {
        4 * n - u16::from(lowest(first)) - (3 - u16::from(highest(last)))
    }
}

// A value at its place in a word.
fn place(low: u32, x: u32) -> u32
    requires { (low < 32) × (place low x < 2 ^ 32) }
    ensures { result ≡ place low x }
{
    x << low
}

// How many bytes a read asks for, 1 to 4,096, from the lowest enabled to the highest.
#[tactic(auto, using(header::proofs::Laws::Lengths::dwords_bounds))]
pub fn byte_count(read: Header) -> u16
    ensures { result ≡ byte_count read }
{
    count_of(read.dwords(), read.first_enables(), read.last_enables())
}

// "address bits 6:2 and the place of the lowest enabled byte"
#[tactic(auto, using(crate::proofs::Laws::Count::places))]
pub fn lower_address(read: Header) -> u8
    ensures { result ≡ lower_address read }
{
    (read.address() / 4 % 32 * 4) as u8 + lowest(read.first_enables())
}

// "0x0A000000 with the read's TC and Attr 13:12"
fn answer_word_0(read: Header) -> u32
    ensures { result ≡ answer_word_0 read }
{
    place(24, u32::from(Kind::COMPLETION.byte))
        + place(20, u32::from(read.traffic_class()))
        + place(12, u32::from(read.attributes()))
}

// "completer, status 1, BCM 0, byte count"
fn answer_word_1(read: Header, completer: u16) -> u32
    ensures { result ≡ answer_word_1 read completer }
{
    place(16, u32::from(completer))
        + place(13, UNSUPPORTED_REQUEST)
        + u32::from(byte_count(read)) % 4096
}

// "its requester ID, tag, lower address"
fn answer_word_2(read: Header) -> u32
    ensures { result ≡ answer_word_2 read }
{
    place(16, u32::from(read.requester_id()))
        + place(8, u32::from(read.tag()))
        + u32::from(lower_address(read))
}

// The completion that answers this read where it is refused.
pub fn answer(read: Header, completer: u16) -> Header
    ensures { result ≡ answer_to read completer }
{
    Header {
        w0: answer_word_0(read),
        w1: answer_word_1(read, completer),
        w2: answer_word_2(read),
        w3: 0,
    }
}
