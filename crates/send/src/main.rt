// As bench, from any sender: the first argument is the partition, standard input the packet.
#![tactic(auto)]

ghost use Rattle.std.specs.Prelude.{◌<◌, IfSome};

use desk::passing;
use std::env::{Env, FillError};
use std::io;

// A decimal digit.
fn digit(byte: u8) -> Option<u32>
    ensures { IfSome result (λ d. d < 10) }
{
    char::from(byte).to_digit(10)
}

// The sender that a word names, by one or two digits.
fn parsed(word: &[u8]) -> Option<u32> {
    match word {
        &[ones] => digit(ones),
        &[tens, ones] => Some(10 * digit(tens)? + digit(ones)?),
        _ => None,
    }
}

// The one word that the program was started with, as a sender.
fn named_sender(rt: &impl Env) -> Option<u32> {
    let mut text = [0u8; 3];
    let n = rt.arg(1, &mut text).ok()?;
    match rt.arg(2, &mut [0u8; 3]) {
        Err(FillError::NotPresent) => parsed(&text[..n]),
        _ => None,
    }
}

// Passes standard input from `p`.
fn send(rt: &(impl Input + Print), p: u32) -> io::Result<()> {
    let mut packet = [0u8; 4113];
    let mut out = [0u8; 4112];
    passing::pass_input(rt, p, &mut packet, &mut out)
}

fn main(rt: HostRuntime) -> io::Result<()> {
    match named_sender(&rt) {
        Some(p) => send(&rt, p),
        None => println!(rt; "send: one word is wanted, the sender, as one or two decimal digits"),
    }
}
