// One packet over the exam sheet's tables, with empty logs.
ghost use Rattle.std.specs.Prelude.{◌≡◌, ◌≤◌, length};
ghost use Rattle.switch.specs.Answer.{on_paper};
ghost use Rattle.switch.specs.After.{answer_of, out_of};
ghost use Rattle.sheet.specs.Cases.{over_sheet};
ghost use Rattle.desk.specs.Passing.{OutOfInput};

use crate::line::Line;
use std::io;
use std::io::Read;
use switch::answer::Outcome;
use switch::pass;

// Passes a packet from `p` over the sheet.
pub fn over_sheet(p: u32, packet: &[u8], out: &mut [u8]) -> Outcome
    ensures result_value { on_paper result ≡ answer_of (over_sheet p packet.now out.old) }
    ensures out_after { out.new ≡ out_of (over_sheet p packet.now out.old) }
{
    let windows = sheet::lent::windows();
    let mut numbers = sheet::lent::numbers();
    let mut logs = sheet::lent::logs();
    pass::pass(p, packet, &windows, &mut numbers, &mut logs, out)
}

// Reads until the buffer is full, the input ends or a read fails, and returns how many bytes it put at the start of the buffer.
fn read_full(input: &mut impl Read, buf: &mut [u8]) -> usize
    ensures { result ≤ length buf.new }
{
    let mut done = 0;
    while done < buf.len() {
        match input.read(&mut buf[done..]) {
            Ok(0) | Err(_) => break,
            Ok(n) => done += n,
        }
    }
    done
}

// Whether standard input failed after `n` bytes: where there was room for more, one further read tells an end from a failure.
fn failed(input: &mut impl Read, n: usize, room: usize) -> bool {
    n < room && input.read(&mut [0u8; 1]).is_err()
}

// Reads one packet from standard input, cut where the buffer ends, passes it from `p`, and prints the line. What is said of Out
// holds also where the line could not be printed.
pub fn pass_input(
    rt: &(impl Input + Print),
    p: u32,
    packet: &mut [u8],
    out: &mut [u8],
) -> io::Result<()>
    ensures { OutOfInput p packet.new out.old out.new }
{
    let mut input = rt.reader();
    let n = read_full(&mut input, packet);
    if failed(&mut input, n, packet.len()) {
        return println!(rt; "no packet: standard input cannot be read");
    }
    println!(rt; "{}", Line(over_sheet(p, &packet[..n], out)))
}
