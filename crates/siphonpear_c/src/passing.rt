// Passing a packet for C: the number is returned, and the rest of the answer is eight words over the start of a lent buffer.
ghost use Rattle.routing.specs.Call.{lent, call_of};
ghost use Rattle.siphonpear.specs.Abi.{Called};

use siphonpear::passing;

// Passes a packet from partition `p`. A buffer for the answer that is too short is refused, by 1, before all else.
#[unsafe(no_mangle)]
pub extern "C" fn siphon_pass(
    p: u32,
    packet: &[u8],
    windows: &[u64],
    numbers: &mut [u32],
    logs: &mut [u32],
    out: &mut [u8],
    answer: &mut [u32],
) -> u32
    ensures { Called (call_of p packet.now (lent windows.now numbers.old) logs.old out.old) answer.old result out.new logs.new numbers.new answer.new }
{
    passing::siphon_pass(p, packet, windows, numbers, logs, out, answer)
}
