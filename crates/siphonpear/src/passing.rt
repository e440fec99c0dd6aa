// Passing a packet for C: the number is returned, and the rest of the answer is eight words over the start of a lent buffer.
ghost use Rattle.std.specs.Prelude.{◌≡◌, ◌≤◌, length};
ghost use Rattle.routing.specs.Call.{lent, call_of};
ghost use Rattle.switch.specs.Answer.{on_paper, length_of};
ghost use Rattle.siphonpear.specs.Abi.{record_words, answer_words, answer_after, Called};

use routing::refusal::Refusal;
use switch::answer::{Outcome, Sent};
use switch::pass;

// How many words an answer has.
pub const ANSWER_LENGTH: usize = 8;

// The first of them: what became of the packet.
pub const CROSSED: u32 = 0;

pub const ANSWERED: u32 = 1;

pub const DROPPED: u32 = 2;

// The outcome's number and its record, as eight words.
#[tactic(auto, using(wire::proofs::Laws::Write::over_fits))]
fn put_record(outcome: u32, sent: Sent, answer: &mut [u32])
    requires { (8 ≤ length answer.old) × (sent.length ≤ 4112) }
    ensures { answer.new ≡ answer_after (record_words outcome sent) answer.old }
{
    let h = sent.header;
    if let Some(words) = answer.first_chunk_mut() {
        *words = [
            outcome,
            u32::from(sent.partition),
            sent.length as u32,
            u32::from(sent.words),
            h.w0,
            h.w1,
            h.w2,
            h.w3,
        ];
    }
}

// The words of an answer: a packet that was dropped has no record.
fn put_answer(outcome: Outcome, answer: &mut [u32])
    requires { (8 ≤ length answer.old) × (length_of (on_paper outcome) ≤ 4112) }
    ensures { answer.new ≡ answer_after (answer_words (on_paper outcome)) answer.old }
{
    match outcome {
        Outcome::Crossed(sent) => put_record(CROSSED, sent, answer),
        Outcome::Answered(_, sent) => put_record(ANSWERED, sent, answer),
        Outcome::Dropped(_) => put_record(DROPPED, Sent::default(), answer),
    }
}

// Passes a packet from partition `p`. A buffer for the answer that is too short is refused, by 1, before all else.
pub fn siphon_pass(
    p: u32,
    packet: &[u8],
    windows: &[u64],
    numbers: &mut [u32],
    logs: &mut [u32],
    out: &mut [u8],
    answer: &mut [u32],
) -> u32
    ensures { Called (call_of p packet.now (lent windows.now numbers.old) logs.old out.old) answer.old result out.new logs.new numbers.new answer.new }
{
    if answer.len() < ANSWER_LENGTH {
        return u32::from(Refusal::WrongCall);
    }
    let outcome = pass::pass(p, packet, windows, numbers, logs, out);
    put_answer(outcome, answer);
    u32::from(outcome)
}
