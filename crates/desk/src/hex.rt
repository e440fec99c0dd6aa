// "Words as eight upper-case hex digits".
ghost use Rattle.std.specs.Prelude.{◌≡◌, ◌%◌};
ghost use Rattle.desk.specs.Hex.{hex_digit, hex_word};

// The digit of the lowest four bits.
#[tactic(auto, using(ground::proofs::Laws::Pick::decide))]
pub fn digit(n: u32) -> u8
    ensures { result ≡ hex_digit (n % 16) }
{
    let d = (n % 16) as u8;
    if d < 10 { b'0' + d } else { b'A' + (d - 10) }
}

// A word, the highest digit first.
pub fn word(w: u32) -> [u8; 8]
    ensures { result ≡ hex_word w }
{
    [
        digit(w / 0x1000_0000),
        digit(w / 0x0100_0000),
        digit(w / 0x0010_0000),
        digit(w / 0x0001_0000),
        digit(w / 0x1000),
        digit(w / 0x0100),
        digit(w / 0x0010),
        digit(w),
    ]
}
