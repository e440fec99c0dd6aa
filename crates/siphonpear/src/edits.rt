// The table calls for C: each is the call below it, whose number it returns.
ghost use Rattle.std.specs.Prelude.{◌≡◌};
ghost use Rattle.windows.specs.Edit.{set_window_number, set_window_after, empty_window_number, empty_window_after};
ghost use Rattle.numbers.specs.Entries.{set_entry_number, set_entry_after, free_entry_number, free_entry_after};
ghost use Rattle.numbers.specs.Buses.{set_bus_number, set_bus_after, make_inactive_number, make_inactive_after};
ghost use Rattle.logs.specs.Logs.{clear_number, clear_after};
ghost use Rattle.siphonpear.specs.Abi.{is_yes};

use ground::table;
use numbers::{buses, entries};
use windows::edit;

// Sets a window, which is then enabled; marked packets may pass by it where `marked` is not 0.
pub fn siphon_set_window(
    p: u32,
    slot: u32,
    base: u64,
    target: u64,
    k: u32,
    q: u32,
    marked: u32,
    windows: &mut [u64],
) -> u32
    ensures value { result ≡ set_window_number p slot base target k q windows.old }
    ensures windows_after { windows.new ≡ set_window_after p slot base target k q (is_yes marked) windows.old }
{
    table::call_number(edit::set_window(p, slot, base, target, k, q, marked != 0, windows))
}

// Empties a window: three zeros.
pub fn siphon_empty_window(p: u32, slot: u32, windows: &mut [u64]) -> u32
    ensures value { result ≡ empty_window_number p slot windows.old }
    ensures windows_after { windows.new ≡ empty_window_after p slot windows.old }
{
    table::call_number(edit::empty_window(p, slot, windows))
}

// Sets an entry: slot `slot` of partition `p` holds this ID from now on.
pub fn siphon_set_entry(p: u32, slot: u32, id: u16, numbers: &mut [u32]) -> u32
    ensures value { result ≡ set_entry_number p slot id numbers.old }
    ensures numbers_after { numbers.new ≡ set_entry_after p slot id numbers.old }
{
    table::call_number(entries::set_entry(p, slot, id, numbers))
}

// Frees an entry: its word becomes 0.
pub fn siphon_free_entry(p: u32, slot: u32, numbers: &mut [u32]) -> u32
    ensures value { result ≡ free_entry_number p slot numbers.old }
    ensures numbers_after { numbers.new ≡ free_entry_after p slot numbers.old }
{
    table::call_number(entries::free_entry(p, slot, numbers))
}

// Sets a partition's bus.
pub fn siphon_set_bus(p: u32, bus: u32, numbers: &mut [u32]) -> u32
    ensures value { result ≡ set_bus_number p bus numbers.old }
    ensures numbers_after { numbers.new ≡ set_bus_after p bus numbers.old }
{
    table::call_number(buses::set_bus(p, bus, numbers))
}

// Makes a partition inactive: its bus word becomes 256.
pub fn siphon_make_inactive(p: u32, numbers: &mut [u32]) -> u32
    ensures value { result ≡ make_inactive_number p numbers.old }
    ensures numbers_after { numbers.new ≡ make_inactive_after p numbers.old }
{
    table::call_number(buses::make_inactive(p, numbers))
}

// Clears in the status of `p` the bits given as ones.
pub fn siphon_clear_log(p: u32, ones: u32, logs: &mut [u32]) -> u32
    ensures value { result ≡ clear_number p logs.old }
    ensures logs_after { logs.new ≡ clear_after p ones logs.old }
{
    table::call_number(logs::clear(p, ones, logs))
}
