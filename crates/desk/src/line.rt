// An outcome as one line: `crossed`, its partition, length and header words; `answered`, its refusal, length and header words;
// `dropped` and its refusal. Words are upper-case hex, other numbers decimal; data words are not printed.
ghost use Rattle.std.specs.Prelude.{Some};
ghost use Rattle.desk.specs.Hex.{hex_word};

use crate::hex;
use std::fmt;
use switch::answer::{Outcome, Sent};

// A word, as eight digits.
#[derive(Clone, Copy)]
struct Word(u32);

impl fmt::Display for Word {
    ghost output = { λ w. Some (hex_word w.0) };

    fn fmt<W: fmt::Write>(&self, f: &mut fmt::Formatter<W>) -> fmt::Result {
        let digits = hex::word(self.0);
        f.write_str(str::from_utf8(&digits).unwrap())
    }
}

// What came out: its length, and the header's own three words, or four.
#[derive(Clone, Copy)]
struct Shown(Sent);

impl fmt::Display for Shown {
    fn fmt<W: fmt::Write>(&self, f: &mut fmt::Formatter<W>) -> fmt::Result {
        let sent = self.0;
        let h = sent.header;
        write!(
            f,
            "{} {} {} {}",
            sent.length,
            Word(h.w0),
            Word(h.w1),
            Word(h.w2)
        )?;
        if sent.words == 4 {
            write!(f, " {}", Word(h.w3))?;
        }
        Ok(())
    }
}

// The line.
#[derive(Clone, Copy)]
pub(crate) struct Line(pub(crate) Outcome);

impl fmt::Display for Line {
    fn fmt<W: fmt::Write>(&self, f: &mut fmt::Formatter<W>) -> fmt::Result {
        match self.0 {
            Outcome::Crossed(sent) => write!(f, "crossed {} {}", sent.partition, Shown(sent)),
            Outcome::Answered(refusal, sent) => {
                write!(f, "answered {} {}", u32::from(refusal), Shown(sent))
            }
            Outcome::Dropped(refusal) => write!(f, "dropped {}", u32::from(refusal)),
        }
    }
}
