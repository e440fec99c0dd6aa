// What passing changes: Out and the sender's log, as the outcome says.
ghost use Rattle.std.specs.Prelude.{◌≡◌, Some};
ghost use Rattle.tlp.specs.Form.{rule_number};
ghost use Rattle.routing.specs.Refusal.{refusal_number};
ghost use Rattle.switch.specs.Answer.{on_paper};
ghost use Rattle.switch.specs.After.{out_after, log_bit, logged, logs_after};

use crate::answer::Outcome;
use header::words::Header;
use logs::Bit;
use routing::refusal::Refusal;
use tlp::form::Rule;

// The bit of a rule of form that broke.
#[tactic(auto, unfolding(crate::specs::After::log_bit, ground::specs::Pick::pick))]
fn rule_bit(rule: Rule) -> Bit
    ensures { Some result ≡ log_bit (rule_number rule) }
{
    match rule {
        Rule::TooShort => Bit::Malformed,
        Rule::NotCarried => Bit::Unsupported,
        Rule::WrongLength => Bit::Malformed,
        Rule::Enables => Bit::Malformed,
        Rule::Contiguity => Bit::Malformed,
        Rule::PageCrossing => Bit::Malformed,
        Rule::ZeroHighWord => Bit::Malformed,
    }
}

// The list's column "Log bit": none where a refusal is not logged.
#[tactic(auto, unfolding(crate::specs::After::log_bit, ground::specs::Pick::pick))]
pub fn log_bit(refusal: Refusal) -> Option<Bit>
    ensures { result ≡ log_bit (refusal_number refusal) }
{
    match refusal {
        Refusal::WrongCall => None,
        Refusal::SenderInactive => None,
        Refusal::Broken(rule) => Some(rule_bit(rule)),
        Refusal::Poisoned => Some(Bit::Poisoned),
        Refusal::NoWindow => Some(Bit::Unsupported),
        Refusal::NoEntry => Some(Bit::Unsupported),
        Refusal::DestinationInactive => Some(Bit::Unsupported),
        Refusal::NotPassable => Some(Bit::UnexpectedCompletion),
    }
}

// Writes what came out of a packet with these data, if anything did.
#[tactic(auto, using(wire::proofs::Laws::Write::over_none))]
pub(crate) fn write_out(outcome: Outcome, body: &[u8], out: &mut [u8])
    ensures { out.new ≡ out_after (on_paper outcome) body.now out.old }
{
    match outcome {
        Outcome::Crossed(sent) => {
            let header = sent.header;
            wire::write(header, body, out);
        }
        Outcome::Answered(_, sent) => {
            let header = sent.header;
            wire::write(header, b"", out);
        }
        Outcome::Dropped(_) => {}
    }
}

// Logs an error in the row of `p`, if it is one that is logged.
fn log(entry: Option<Bit>, p: u8, h: Header, logs: &mut [u32])
    ensures { logs.new ≡ logged entry p h logs.old }
{
    if let Some(bit) = entry {
        logs::record(p, bit, h, logs);
    }
}

// Logs what was refused, of a packet with the header `h`.
pub(crate) fn write_log(outcome: Outcome, p: u8, h: Header, logs: &mut [u32])
    ensures { logs.new ≡ logs_after (on_paper outcome) p h logs.old }
{
    match outcome {
        Outcome::Crossed(_) => {}
        Outcome::Answered(refusal, _) => log(log_bit(refusal), p, h, logs),
        Outcome::Dropped(refusal) => log(log_bit(refusal), p, h, logs),
    }
}
