// "Numbers": the bus words, and the calls that edit them.
ghost use Rattle.std.specs.Prelude.{◌≡◌};
ghost use Rattle.ground.specs.Table.{call_number};
ghost use Rattle.numbers.specs.Buses.{
  bus_index,
  bus_of,
  is_active,
  set_bus_number,
  set_bus_after,
  make_inactive_number,
  make_inactive_after,
};

use crate::entries::{Numbers, Partition};
use ground::table;
use ground::table::Refused;

// The bus word of partition `p` in the table.
fn bus_index(p: u8) -> usize
    ensures { result ≡ bus_index p }
{
    Numbers::ENTRIES + usize::from(p)
}

impl Partition<'_> {
    // The bus word of a partition.
    pub fn bus(self) -> u32
        ensures { result ≡ bus_of self.entry.numbers.now self.entry.p }
    {
        table::word(self.numbers, bus_index(self.p), 0)
    }

    // "0..255 is that partition's bus; any other value means inactive".
    pub fn is_active(self) -> bool
        ensures { result ≡ is_active self.entry.numbers.now self.entry.p }
    {
        self.bus() < 256
    }
}

// Sets a partition's bus.
#[tactic(auto, unfolding(ground::specs::Pick::pick, ground::specs::Table::edited, crate::specs::Buses::set_bus_number))]
pub fn set_bus(p: u32, bus: u32, numbers: &mut [u32]) -> Result<(), Refused>
    ensures value { call_number result ≡ set_bus_number p bus numbers.old }
    ensures numbers_after { numbers.new ≡ set_bus_after p bus numbers.old }
{
    if table::wrong_table(p, numbers.len(), Numbers::LENGTH) | (255 < bus) {
        return Err(Refused::WrongCall);
    }
    table::put(numbers, bus_index(p as u8), bus);
    Ok(())
}

// Makes a partition inactive: its bus word becomes 256.
#[tactic(auto, unfolding(ground::specs::Pick::pick, ground::specs::Table::edited, crate::specs::Buses::make_inactive_number))]
pub fn make_inactive(p: u32, numbers: &mut [u32]) -> Result<(), Refused>
    ensures value { call_number result ≡ make_inactive_number p numbers.old }
    ensures numbers_after { numbers.new ≡ make_inactive_after p numbers.old }
{
    if table::wrong_table(p, numbers.len(), Numbers::LENGTH) {
        return Err(Refused::WrongCall);
    }
    table::put(numbers, bus_index(p as u8), 256);
    Ok(())
}
