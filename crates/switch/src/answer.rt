// "What comes back": the outcome, its refusal, and the record that comes with it; and what each way comes to.
ghost use Rattle.std.specs.Prelude.{◌≡◌, true, Ok};
ghost use Rattle.numbers.specs.Buses.{bus_of, is_active};
ghost use Rattle.switch.specs.Answer.{sent_of, on_paper, number_of, refused, way_answer};
ghost use Rattle.routing.specs.Steps.{Reached};
ghost use Rattle.routing.specs.declared.rule.Way.TheVariants.{Goes, Comes};

use header::words::Header;
use look::Translation;
use numbers::entries::Partition;
use routing::refusal::Refusal;
use routing::rule::{Carried, Way};

// The record: the header words, how many the header has, the partition that the packet comes out in, and its length.
#[derive(Clone, Copy, Debug, Default, PartialEq, Eq)]
pub struct Sent {
    pub header: Header,
    pub words: u8,
    pub partition: u8,
    pub length: usize,
}

// "The answer is one of: crossed, answered, dropped".
#[derive(Clone, Copy, Debug, PartialEq, Eq)]
pub enum Outcome {
    Crossed(Sent),
    Answered(Refusal, Sent),
    Dropped(Refusal),
}

// The number of an outcome: 0 for crossed, else the refusal's.
impl From<Outcome> for u32 {
    ghost from_gives = { λ outcome n. n ≡ number_of (on_paper outcome) };

    fn from(outcome: Outcome) -> u32 {
        match outcome {
            Outcome::Crossed(_) => 0,
            Outcome::Answered(refusal, _) => u32::from(refusal),
            Outcome::Dropped(refusal) => u32::from(refusal),
        }
    }
}

impl Sent {
    // The record of a packet with these header words that comes out in `q`.
    #[tactic(auto, using(ground::proofs::Laws::Pick::decide), unfolding(ground::specs::Pick::pick))]
    pub fn new(header: Header, q: u8) -> Sent
        ensures { result ≡ sent_of header q }
    {
        Sent {
            header,
            words: if header.has_four_words() { 4 } else { 3 },
            partition: q,
            length: header.total_bytes(),
        }
    }
}

// A refused packet: a read is answered where the list says so, anything else dropped.
#[tactic(auto, using(ground::proofs::Laws::Pick::decide), unfolding(crate::specs::Answer::refused))]
fn refuse(refusal: Refusal, p: u8, bus: u8, h: Header) -> Outcome
    ensures { on_paper result ≡ refused refusal p bus h }
{
    if refusal.answers_reads() & h.is_read() {
        return Outcome::Answered(
            refusal,
            Sent::new(count::answer(h, 256 * u16::from(bus)), p),
        );
    }
    Outcome::Dropped(refusal)
}

// The bus of an active partition.
fn active_bus(numbers: &[u32], p: u8) -> u8
    requires { is_active numbers.now p ≡ true }
    ensures { result ≡ bus_of numbers.now p }
{
    (Partition { numbers, p }.bus() % 256) as u8
}

// A request over: its address moved, under the number of entry `i` on the destination's bus.
fn send(packet: Carried, t: Translation, i: u16) -> Outcome
    requires { Reached (Ok (Goes t i)) packet.numbers.now }
    ensures { on_paper result ≡ way_answer (Ok (Goes t i)) packet.entry.p packet.entry.h packet.entry.numbers.now }
{
    let number = 256 * u16::from(active_bus(packet.numbers, t.destination)) + 64 + i;
    let moved = packet.h.readdressed(t.address);
    Outcome::Crossed(Sent::new(moved.renamed(number), t.destination))
}

// A completion back, to the owner of entry `i`.
fn send_back(packet: Carried, id: u16, i: u8) -> Outcome
    requires { Reached (Ok (Comes id i)) packet.numbers.now }
    ensures { on_paper result ≡ way_answer (Ok (Comes id i)) packet.entry.p packet.entry.h packet.entry.numbers.now }
{
    let owner = i / 4;
    let completer = 256 * u16::from(active_bus(packet.numbers, owner));
    Outcome::Crossed(Sent::new(packet.h.returned(id, completer), owner))
}

// What becomes of a packet that goes this way.
pub(crate) fn outcome_of(way: Result<Way, Refusal>, packet: Carried) -> Outcome
    requires { (is_active packet.numbers.now packet.p ≡ true) × Reached way packet.numbers.now }
    ensures { on_paper result ≡ way_answer way packet.entry.p packet.entry.h packet.entry.numbers.now }
{
    match way {
        Err(refusal) => refuse(
            refusal,
            packet.p,
            active_bus(packet.numbers, packet.p),
            packet.h,
        ),
        Ok(Way::Goes(t, i)) => send(packet, t, i),
        Ok(Way::Comes(id, i)) => send_back(packet, id, i),
    }
}
