// The passing call: the gate; then the packet is carried: the decision, then Out, then the log. Nothing is touched before everything
// is decided.
ghost use Rattle.std.specs.Prelude.{◌≡◌, true, length, Ok};
ghost use Rattle.numbers.specs.Buses.{is_active};
ghost use Rattle.routing.specs.Call.{lent, call_of};
ghost use Rattle.routing.specs.Rule.{gate_for, carried_way};
ghost use Rattle.routing.specs.Steps.{Reached};
ghost use Rattle.switch.specs.Answer.{on_paper, way_answer};
ghost use Rattle.switch.specs.After.{out_after, logs_after, Passes};

use crate::answer::Outcome;
use crate::{after, answer};
use header::words;
use header::words::Header;
use routing::refusal::Refusal;
use routing::rule;
use routing::rule::{Carried, Way};
use rows::Rows;

// What a packet that goes this way comes to: the outcome, then Out, then the log.
fn settle(
    way: Result<Way, Refusal>,
    packet: Carried,
    body: &[u8],
    logs: &mut [u32],
    out: &mut [u8],
) -> Outcome
    requires { (is_active packet.numbers.now packet.p ≡ true) × Reached way packet.numbers.now }
    ensures result_value { on_paper result ≡ way_answer way packet.entry.p packet.entry.h packet.entry.numbers.now }
    ensures out_after { out.new ≡ out_after (on_paper result) body.now out.old }
    ensures logs_after { logs.new ≡ logs_after (on_paper result) packet.entry.p packet.entry.h logs.old }
{
    let outcome = answer::outcome_of(way, packet);
    after::write_out(outcome, body, out);
    after::write_log(outcome, packet.p, packet.h, logs);
    outcome
}

// Carries a packet of `n` bytes with these data past the gate: what packet and numbers say, one look at the windows, and what follows.
pub(crate) fn carry(
    packet: Carried,
    n: usize,
    body: &[u8],
    windows: &[u64],
    logs: &mut [u32],
    out: &mut [u8],
) -> Outcome
    requires { gate_for packet.p (lent windows.now packet.numbers.now) (length logs.old) (length out.old) ≡ Ok tt }
    ensures result_value { on_paper result ≡ way_answer (carried_way packet.entry.p packet.entry.h n (lent windows.now packet.entry.numbers.now)) packet.entry.p packet.entry.h packet.entry.numbers.now }
    ensures out_after { out.new ≡ out_after (on_paper result) body.now out.old }
    ensures logs_after { logs.new ≡ logs_after (on_paper result) packet.entry.p packet.entry.h logs.old }
{
    let plan = packet.plan(n);
    let rows = Rows {
        windows,
        p: rule::whose(plan, packet.p),
    };
    let seen = look::ask(rule::question(plan, packet.p, packet.h), rows);
    let way = packet.finish(plan, seen);
    settle(way, packet, body, logs, out)
}

// Passes a packet from partition `p`.
pub fn pass(
    p: u32,
    packet: &[u8],
    windows: &[u64],
    numbers: &mut [u32],
    logs: &mut [u32],
    out: &mut [u8],
) -> Outcome
    ensures { Passes (call_of p packet.now (lent windows.now numbers.old) logs.old out.old) (on_paper result) out.new logs.new numbers.new }
{
    match rule::enter(p, windows.len(), numbers, logs.len(), out.len()) {
        Err(refusal) => Outcome::Dropped(refusal),
        Ok(()) => {
            let h = Header::read(packet);
            let body = words::after(packet, h.header_bytes());
            let carried = Carried {
                p: p as u8,
                h,
                numbers,
            };
            carry(carried, packet.len(), body, windows, logs, out)
        }
    }
}
