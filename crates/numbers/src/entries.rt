// "Numbers": the mapping entries, what a word of one means, the look-up, and the calls that edit them.
ghost use Rattle.std.specs.Prelude.{◌≡◌};
ghost use Rattle.ground.specs.Table.{call_number};
ghost use Rattle.numbers.specs.Entries.{
  look_at,
  entry_index,
  holds_id,
  slot_holds,
  entry_of,
  entry_at,
  held_elsewhere,
  wrong_entry,
  set_entry_number,
  set_entry_after,
  free_entry_number,
  free_entry_after,
};

use ground::table;
use ground::table::Refused;

// The table, and its sizes.
#[derive(Clone, Copy)]
pub struct Numbers {}

impl Numbers {
    pub const LENGTH: usize = 80;

    pub const ENTRIES: usize = 64;

    pub const SLOTS: u8 = 4;
}

// What a mapping word says: "either free or held with the ID".
#[derive(Clone, Copy, Debug, PartialEq, Eq)]
pub enum Entry {
    Free,
    Held(u16),
}

// A partition, as the table of numbers has it.
#[derive(Clone, Copy, Debug)]
pub struct Partition<'a> {
    pub numbers: &'a [u32],
    pub p: u8,
}

// "A look at an entry is given its word": an ill-formed word is free.
#[tactic(auto, unfolding(ground::specs::Pick::pick, crate::specs::Entries::look_at))]
pub fn look(word: u32) -> Entry
    ensures { result ≡ look_at word }
{
    if word / 0x0001_0000 == 1 {
        Entry::Held((word % 0x0001_0000) as u16)
    } else {
        Entry::Free
    }
}

impl Entry {
    // The entry holds this ID.
    pub fn holds(self, id: u16) -> bool
        ensures { result ≡ holds_id self id }
    {
        self == Entry::Held(id)
    }
}

// Slot `s` of partition `p` among all entries.
fn entry_index(p: u8, s: u8) -> u16
    ensures { result ≡ entry_index p s }
{
    u16::from(Numbers::SLOTS) * u16::from(p) + u16::from(s)
}

// The entry with this index among all of them.
pub fn entry_at(numbers: &[u32], i: u16) -> Entry
    ensures { result ≡ entry_at numbers.now i }
{
    look(table::word(numbers, usize::from(i), 0))
}

impl Partition<'_> {
    // Slot `s` holds this ID.
    fn slot_holds(self, id: u16, s: u8) -> bool
        ensures { result ≡ slot_holds self.entry.numbers.now self.entry.p id s }
    {
        entry_at(self.numbers, entry_index(self.p, s)).holds(id)
    }

    // "The entry is the lowest slot of p holding the requester ID, with index i".
    pub fn find(self, id: u16) -> Option<u16>
        ensures { result ≡ entry_of self.entry.numbers.now self.entry.p id }
    {
        (0..Numbers::SLOTS)
            .find(|s| self.slot_holds(id, *s))
            .map(|s| entry_index(self.p, s))
    }

    // "Another slot of the owner holds this ID".
    fn held_elsewhere(self, slot: u8, id: u16) -> bool
        ensures { result ≡ held_elsewhere self.entry.numbers.now self.entry.p slot id }
    {
        (0..Numbers::SLOTS).any(|s| (s != slot) & self.slot_holds(id, s))
    }
}

// Refusal 1 of the two calls below: no such partition or slot, or a table of another length.
fn wrong_entry(p: u32, slot: u32, have: usize) -> bool
    ensures { result ≡ wrong_entry p slot have }
{
    table::wrong_table(p, have, Numbers::LENGTH) | (3 < slot)
}

// Sets an entry: slot `slot` of partition `p` holds this ID from now on.
#[tactic(auto, unfolding(ground::specs::Pick::pick, ground::specs::Table::edited, crate::specs::Entries::set_entry_number))]
pub fn set_entry(p: u32, slot: u32, id: u16, numbers: &mut [u32]) -> Result<(), Refused>
    ensures value { call_number result ≡ set_entry_number p slot id numbers.old }
    ensures numbers_after { numbers.new ≡ set_entry_after p slot id numbers.old }
{
    if wrong_entry(p, slot, numbers.len()) {
        return Err(Refused::WrongCall);
    }
    let owner = Partition {
        numbers,
        p: p as u8,
    };
    if owner.held_elsewhere(slot as u8, id) {
        return Err(Refused::Repetition);
    }
    let i = entry_index(p as u8, slot as u8);
    table::put(numbers, usize::from(i), 0x0001_0000 + u32::from(id));
    Ok(())
}

// Frees an entry: its word becomes 0.
#[tactic(auto, unfolding(ground::specs::Pick::pick, ground::specs::Table::edited, crate::specs::Entries::free_entry_number))]
pub fn free_entry(p: u32, slot: u32, numbers: &mut [u32]) -> Result<(), Refused>
    ensures value { call_number result ≡ free_entry_number p slot numbers.old }
    ensures numbers_after { numbers.new ≡ free_entry_after p slot numbers.old }
{
    if wrong_entry(p, slot, numbers.len()) {
        return Err(Refused::WrongCall);
    }
    table::put(numbers, usize::from(entry_index(p as u8, slot as u8)), 0);
    Ok(())
}
