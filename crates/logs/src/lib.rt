// The logs, a row of six words a partition: status, first error, four header words.
#![tactic(auto)]

ghost use Rattle.std.specs.Prelude.{◌≡◌};
ghost use Rattle.ground.specs.Table.{call_number};
ghost use Rattle.logs.specs.Logs.{row_at, bit_number, bit_mask, noted, recorded, clear_number, clear_after};

use ground::table;
use ground::table::Refused;
use header::words::Header;

// The bits of a status word that the switch sets, each under the paper's number.
#[derive(Clone, Copy, Debug, PartialEq, Eq)]
pub enum Bit {
    Poisoned = 12,
    UnexpectedCompletion = 16,
    Malformed = 18,
    Unsupported = 20,
}

// The paper's number of the bit.
impl From<Bit> for u32 {
    ghost from_gives = { λ bit n. n ≡ bit_number bit };

    fn from(bit: Bit) -> u32 {
        bit as u32
    }
}

impl Bit {
    // A status word with this bit alone.
    pub fn mask(self) -> u32
        ensures { result ≡ bit_mask self }
    {
        1 << u32::from(self)
    }
}

// The table, and its sizes.
#[derive(Clone, Copy)]
pub struct Logs {}

impl Logs {
    pub const LENGTH: usize = 96;

    pub const ROW: usize = 6;
}

// Where the row of `p` begins, with its status.
fn row_at(p: u8) -> usize
    ensures { result ≡ row_at p }
{
    Logs::ROW * usize::from(p)
}

// Notes an error in the row of `p`: first error and header words.
#[tactic(auto, unfolding(crate::specs::Logs::noted))]
fn note(p: u8, bit: Bit, h: Header, logs: &mut [u32])
    ensures { logs.new ≡ noted (row_at p) bit h logs.old }
{
    let row = row_at(p);
    table::put(logs, row + 1, u32::from(bit));
    table::put(logs, row + 2, h.w0);
    table::put(logs, row + 3, h.w1);
    table::put(logs, row + 4, h.w2);
    table::put(logs, row + 5, h.w3);
}

// Records an error in the row of `p`: its first error and header words only if the status was 0, then the bit.
#[tactic(auto, unfolding(ground::specs::Pick::pick, crate::specs::Logs::recorded))]
pub fn record(p: u8, bit: Bit, h: Header, logs: &mut [u32])
    ensures { logs.new ≡ recorded p bit h logs.old }
{
    let row = row_at(p);
    let status = table::word(logs, row, 0);
    if status == 0 {
        note(p, bit, h, logs);
    }
    table::put(logs, row, status | bit.mask());
}

// Clears in the status of `p` the bits given as ones.
#[tactic(auto, using(crate::proofs::Laws::Status::without), unfolding(ground::specs::Pick::pick, ground::specs::Table::edited, crate::specs::Logs::clear_number))]
pub fn clear(p: u32, ones: u32, logs: &mut [u32]) -> Result<(), Refused>
    ensures value { call_number result ≡ clear_number p logs.old }
    ensures logs_after { logs.new ≡ clear_after p ones logs.old }
{
    if table::wrong_table(p, logs.len(), Logs::LENGTH) {
        return Err(Refused::WrongCall);
    }
    let row = row_at(p as u8);
    let status = table::word(logs, row, 0);
    table::put(logs, row, status & !ones);
    Ok(())
}
