// The exam sheet built in: standard input is one packet from partition 1, and one line says what becomes of it.
#![tactic(auto)]

use desk::passing;
use std::io;

fn main(rt: HostRuntime) -> io::Result<()> {
    let mut packet = [0u8; 4113];
    let mut out = [0u8; 4112];
    passing::pass_input(&rt, 1, &mut packet, &mut out)
}
