// Writing header and data over the start of a buffer.
#![tactic(auto, using(crate::proofs::Laws::Write::writing))]

ghost use Rattle.std.specs.Prelude.{◌≡◌, ◌+◌, ◌≤◌, length, []};
ghost use Rattle.ground.specs.Pick.{pick};
ghost use Rattle.header.specs.Kind.{has_four_words, header_bytes};
ghost use Rattle.header.specs.Fields.{kind};
ghost use Rattle.header.specs.Words.{word_bytes};
ghost use Rattle.wire.specs.Write.{packet_list, over, written_bytes};

use header::words::Header;

// A word's four bytes at `at`.
fn put_word(out: &mut [u8], at: usize, w: u32)
    requires { at + 4 ≤ length out.old }
    ensures { out.new ≡ over out.old at (word_bytes w) }
{
    out[at..at + 4].copy_from_slice(&w.to_be_bytes());
}

// The bytes of `payload` at `at`.
fn put_bytes(out: &mut [u8], at: usize, payload: &[u8])
    requires { at + length payload.now ≤ length out.old }
    ensures { out.new ≡ over out.old at payload.now }
{
    for (i, byte) in payload.iter().enumerate() {
        out[at + i] = *byte;
    }
}

// The first word, and the fourth where the header has one.
fn put_outer(h: Header, out: &mut [u8])
    requires { header_bytes (kind h) ≤ length out.old }
    ensures { out.new ≡ over (over out.old 0 (word_bytes h.w0)) 12 (pick (has_four_words (kind h)) (word_bytes h.w3) []) }
{
    put_word(out, 0, h.w0);
    if h.has_four_words() {
        put_word(out, 12, h.w3);
    }
}

// Header and data over the start of a buffer, and how many bytes that is; nothing, and 0, where they do not fit.
pub fn write(h: Header, payload: &[u8], out: &mut [u8]) -> usize
    ensures value { result ≡ written_bytes (length out.old) (packet_list h payload.now) }
    ensures out_after { out.new ≡ over out.old 0 (packet_list h payload.now) }
{
    let n = h.header_bytes();
    let total = n + payload.len();
    if out.len() < total {
        return 0;
    }
    // Not in a row, as docs/BENCHMARKS.md says: the fourth word's test and the data's loop keep the first three words apart.
    put_outer(h, out);
    put_word(out, 4, h.w1);
    put_bytes(out, n, payload);
    put_word(out, 8, h.w2);
    total
}
