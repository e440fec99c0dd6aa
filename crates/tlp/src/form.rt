// Reading a packet: the packet, or the first rule that it breaks, in the paper's order.
ghost use Rattle.std.specs.Prelude.{◌≡◌};
ghost use Rattle.tlp.specs.Form.{
  not_carried,
  wrong_length,
  enables_broken,
  reaches_up,
  reaches_down,
  gaps_allowed,
  contiguity_broken,
  crosses_page,
  zero_high_word,
  request_form,
  form_of,
  packet_of,
  rule_number,
  packet_number,
};

use header::words::Header;

// The rules of form, in the order in which they are looked at, each under the paper's refusal number.
#[derive(Clone, Copy, Debug, PartialEq, Eq)]
pub enum Rule {
    TooShort = 31,
    NotCarried = 4,
    WrongLength = 32,
    Enables = 33,
    Contiguity = 34,
    PageCrossing = 35,
    ZeroHighWord = 36,
}

// The paper's refusal number.
impl From<Rule> for u32 {
    ghost from_gives = { λ rule n. n ≡ rule_number rule };

    fn from(rule: Rule) -> u32 {
        rule as u32
    }
}

// A packet that breaks no rule of form: a request (a read or a write) or a completion, with its header words.
#[derive(Clone, Copy, Debug, PartialEq, Eq)]
pub enum Packet {
    Request(Header),
    Completion(Header),
}

// "another kind; TD set; AT not 0"
fn not_carried(h: Header) -> bool
    ensures { result ≡ not_carried h }
{
    !h.kind().is_carried() | h.has_digest() | (h.address_type() != 0)
}

// "header or data length wrong": longer is as wrong as shorter.
fn wrong_length(n: usize, h: Header) -> bool
    ensures { result ≡ wrong_length n h }
{
    n != h.total_bytes()
}

// Enables: at Length 1 last 0, and first may be 0 as well: a flush. Above 1 neither 0.
#[tactic(auto, using(ground::proofs::Laws::Pick::decide))]
fn enables_broken(h: Header) -> bool
    ensures { result ≡ enables_broken h }
{
    let first = h.first_enables();
    let last = h.last_enables();
    if h.dwords() == 1 {
        last != 0
    } else {
        (first == 0) | (last == 0)
    }
}

// The first dword has no gap up to the next.
fn reaches_up(e: u8) -> bool
    ensures { result ≡ reaches_up e }
{
    matches!(e, 0b1111 | 0b1110 | 0b1100 | 0b1000)
}

// The last dword has no gap from the one before.
fn reaches_down(e: u8) -> bool
    ensures { result ≡ reaches_down e }
{
    matches!(e, 0b0001 | 0b0011 | 0b0111 | 0b1111)
}

// "except at Length 2 with address a multiple of 8"
fn gaps_allowed(h: Header) -> bool
    ensures { result ≡ gaps_allowed h }
{
    let n = h.dwords();
    (n == 1) | ((n == 2) & (h.address() % 8 == 0))
}

// A gap where none is allowed.
fn contiguity_broken(h: Header) -> bool
    ensures { result ≡ contiguity_broken h }
{
    !gaps_allowed(h) & !(reaches_up(h.first_enables()) & reaches_down(h.last_enables()))
}

// The request runs past its 4 KiB page.
fn crosses_page(h: Header) -> bool
    ensures { result ≡ crosses_page h }
{
    4096 < h.address() % 4096 + 4 * u64::from(h.dwords())
}

// A 64-bit header with a high word of 0.
fn zero_high_word(h: Header) -> bool
    ensures { result ≡ zero_high_word h }
{
    h.has_four_words() & (h.high_word() == 0)
}

// "Request form".
#[tactic(auto, using(ground::proofs::Laws::Pick::decide), unfolding(crate::specs::Form::request_form))]
fn request_form(h: Header) -> Result<Packet, Rule>
    ensures { result ≡ request_form h }
{
    if enables_broken(h) {
        return Err(Rule::Enables);
    }
    if contiguity_broken(h) {
        return Err(Rule::Contiguity);
    }
    if crosses_page(h) {
        return Err(Rule::PageCrossing);
    }
    if zero_high_word(h) {
        return Err(Rule::ZeroHighWord);
    }
    Ok(Packet::Request(h))
}

// A packet of `n` bytes with these header words, or the first rule that it breaks.
#[tactic(auto, using(ground::proofs::Laws::Pick::decide), unfolding(crate::specs::Form::form_of))]
pub fn form(n: usize, h: Header) -> Result<Packet, Rule>
    ensures { result ≡ form_of n h }
{
    if n < 12 {
        return Err(Rule::TooShort);
    }
    if not_carried(h) {
        return Err(Rule::NotCarried);
    }
    if wrong_length(n, h) {
        return Err(Rule::WrongLength);
    }
    if h.is_completion() {
        return Ok(Packet::Completion(h));
    }
    request_form(h)
}

impl Packet {
    // Reading a packet, or the first rule that it breaks.
    pub fn read(packet: &[u8]) -> Result<Packet, Rule>
        ensures { result ≡ packet_of packet.now }
    {
        form(packet.len(), Header::read(packet))
    }
}

// The paper's refusal number; 0, which is none, of a packet that breaks no rule.
pub fn refusal(packet: Result<Packet, Rule>) -> u32
    ensures { result ≡ packet_number packet }
{
    match packet {
        Ok(_) => 0,
        Err(rule) => u32::from(rule),
    }
}
