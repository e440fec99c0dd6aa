// The exam sheet's tables, for programs to lend to the switch.
ghost use Rattle.std.specs.Prelude.{◌≡◌};
ghost use Rattle.sheet.specs.Tables.{windows, numbers, logs};

// Partition 1, slot 0: to 0. Slot 1: to 3. All else is 0.
#[tactic(auto, unfolding(crate::specs::Tables::windows))]
pub fn windows() -> [u64; 768]
    ensures { result ≡ windows }
{
    let mut table = [0u64; 768];
    table[48] = 0x9000_0000;
    table[49] = 0x1_4000_0000;
    table[50] = 0x1014;
    table[51] = 0xA000_0000;
    table[53] = 0x130C;
    table
}

// Partition 1, entry slot 2, holds 0300. Buses 0 -> 1, 1 -> 2, 2 -> 2; the rest inactive.
#[tactic(auto, unfolding(crate::specs::Tables::numbers))]
pub fn numbers() -> [u32; 80]
    ensures { result ≡ numbers }
{
    let mut table = [0u32; 80];
    table[6] = 0x1_0300;
    table[64] = 1;
    table[65] = 2;
    table[66] = 2;
    table[67..].fill(256);
    table
}

// Empty logs.
#[tactic(auto, unfolding(crate::specs::Tables::logs))]
pub fn logs() -> [u32; 96]
    ensures { result ≡ logs }
{
    [0; 96]
}
