// "Windows": a row by value, its fields, and when it is in force; and the rows of a partition.
#![tactic(auto)]

ghost use Rattle.std.specs.Prelude.{◌≡◌, ◌<◌};
ghost use Rattle.rows.specs.Row.{
  row_at,
  row_of,
  exponent,
  destination,
  is_enabled,
  passes_marked,
  spare_zero,
  is_sized,
  is_fit,
  is_plain,
  aligned,
  in_force,
  spans,
  covers,
  admits,
  leads,
};

use ground::table;

// A row: "each row is base, target, control".
#[derive(Clone, Copy, Debug, PartialEq, Eq)]
pub struct Window {
    pub base: u64,
    pub target: u64,
    pub control: u64,
}

impl Window {
    // "768 numbers of 64 bits"
    pub const LENGTH: usize = 768;
    // Rows a partition.
    pub const SLOTS: u8 = 16;
    // Words a row.
    pub const WIDTH: usize = 3;

    // Where "row 16·p + s", which "is slot s of partition p", begins in the table.
    pub fn index(p: u8, s: u8) -> usize
        ensures { result ≡ row_at p s }
    {
        Window::WIDTH * (usize::from(Window::SLOTS) * usize::from(p) + usize::from(s))
    }

    // "Bits 7:0 exponent k"
    pub fn exponent(self) -> u32
        ensures { result ≡ exponent self }
    {
        (self.control % 256) as u32
    }

    // "Bits 11:8 destination"
    pub fn destination(self) -> u8
        ensures { result ≡ destination self }
    {
        (self.control / 256 % 16) as u8
    }

    // "Bit 12 enabled"
    pub fn is_enabled(self) -> bool
        ensures { result ≡ is_enabled self }
    {
        self.control / 4096 % 2 == 1
    }

    // "Bit 13 .. means that marked packets may pass"
    pub fn passes_marked(self) -> bool
        ensures { result ≡ passes_marked self }
    {
        self.control / 8192 % 2 == 1
    }

    // "Bits above stay zero"
    pub fn spare_is_zero(self) -> bool
        ensures { result ≡ spare_zero self }
    {
        self.control < 16384
    }

    // In force, as far as control alone says.
    fn is_plain(self) -> bool
        ensures { result ≡ is_plain self }
    {
        self.is_enabled() & self.spare_is_zero() & is_sized(self.exponent())
    }

    // The row is in force, as one of partition `p`.
    #[tactic(auto, unfolding(crate::specs::Row::in_force))]
    pub fn in_force(self, p: u8) -> bool
        ensures { result ≡ in_force p self }
    {
        let k = self.exponent();
        self.is_plain()
            && (aligned(self.base, k) & aligned(self.target, k) & (self.destination() != p))
    }

    // The row is in force, and covers this address.
    #[tactic(auto, using(crate::proofs::Laws::Row::force_small))]
    pub fn covers(self, p: u8, a: u64) -> bool
        ensures { result ≡ covers p a self }
    {
        self.in_force(p) && spans(self.base, self.exponent(), a)
    }

    // A packet passes by the row as far as its mark goes: it has none, or the row has the bit.
    fn admits(self, marked: bool) -> bool
        ensures { result ≡ admits marked self }
    {
        !marked | self.passes_marked()
    }

    // The row is in force, its destination is `q`, and packets so marked may pass by it.
    pub fn leads(self, p: u8, q: u8, marked: bool) -> bool
        ensures { result ≡ leads p q marked self }
    {
        self.in_force(p) & (self.destination() == q) & self.admits(marked)
    }
}

// The sixteen rows of a partition.
#[derive(Clone, Copy, Debug)]
pub struct Rows<'a> {
    pub windows: &'a [u64],
    pub p: u8,
}

impl Rows<'_> {
    // "Slot s (0..15)": its row.
    pub fn row(self, s: u8) -> Window
        ensures { result ≡ row_of self.entry.windows.now self.entry.p s }
    {
        let at = Window::index(self.p, s);
        Window {
            base: table::word(self.windows, at, 0),
            target: table::word(self.windows, at + 1, 0),
            control: table::word(self.windows, at + 2, 0),
        }
    }
}

// "12 ≤ k ≤ 39"
fn is_sized(k: u32) -> bool
    ensures { result ≡ is_sized k }
{
    (12 <= k) & (k <= 39)
}

// "A multiple of 2^k", by R-2 as the hardware reads it: "enough low zero bits fit a size; zero fits every
// size". The multiples of 2^k are the numbers whose k lowest bits are 0. So count the zeros below the
// lowest 1: 0x9010_0000 has 20 of them, and fits 2^20 and every smaller size, but not 2^21. Zero has no 1
// to end the count: all its 64 bits are counted, and that is enough for every k.
#[tactic(auto, using(crate::proofs::Laws::Aligned::enough_zeros_fit))]
fn aligned(x: u64, k: u32) -> bool
    requires { k < 64 }
    ensures { result ≡ aligned x k }
{
    k <= u64::trailing_zeros(x)
}

// A window's size is one, and base and target are multiples of it: "12 ≤ k ≤ 39, base and target are multiples of 2^k".
#[tactic(auto, unfolding(crate::specs::Row::is_fit))]
pub fn is_fit(base: u64, target: u64, k: u32) -> bool
    ensures { result ≡ is_fit base target k }
{
    is_sized(k) && (aligned(base, k) & aligned(target, k))
}

// The address lies between the base and base + 2^k − 1.
#[tactic(auto, using(crate::proofs::Laws::Row::shifted), unfolding(crate::specs::Row::spans))]
fn spans(base: u64, k: u32, a: u64) -> bool
    requires { k < 64 }
    ensures { result ≡ spans base k a }
{
    base <= a && a - base < 1 << k
}
