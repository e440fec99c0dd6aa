// "The table calls": set a window, empty it. Each checks everything first and touches the table last.
ghost use Rattle.std.specs.Prelude.{◌≡◌, ◌≤◌};
ghost use Rattle.ground.specs.Table.{call_number};
ghost use Rattle.windows.specs.Edit.{
  wrong_window,
  wrong_values,
  control_word,
  with_row,
  set_window_number,
  set_window_after,
  empty_window_number,
  empty_window_after,
};

use crate::span::Span;
use ground::table;
use ground::table::Refused;
use rows::{Rows, Window};

// Refusal 1: no such partition or slot, or a table of another length.
fn wrong_window(p: u32, slot: u32, have: usize) -> bool
    ensures { result ≡ wrong_window p slot have }
{
    table::wrong_table(p, have, Window::LENGTH) | (15 < slot)
}

// Refusal 10: "k outside 12..39, unaligned, destination above 15 or own".
fn wrong_values(p: u32, base: u64, target: u64, k: u32, q: u32) -> bool
    ensures { result ≡ wrong_values p base target k q }
{
    !rows::is_fit(base, target, k) | (15 < q) | (q == p)
}

// The control word of a window that is set: enabled, and with bit 13 as chosen.
#[tactic(auto, unfolding(ground::specs::Pick::pick))]
fn control_word(k: u32, q: u32, marked: bool) -> u32
    requires { (k ≤ 39) × (q ≤ 15) }
    ensures { result ≡ control_word k q marked }
{
    let mark = if marked { 8192 } else { 0 };
    mark + 4096 + 256 * q + k
}

// Writes a row.
fn put_row(windows: &mut [u64], p: u8, s: u8, w: Window)
    ensures { windows.new ≡ with_row p s w.base w.target w.control windows.old }
{
    let at = Window::index(p, s);
    table::put(windows, at, w.base);
    table::put(windows, at + 1, w.target);
    table::put(windows, at + 2, w.control);
}

// Sets a window, which is then enabled; marked packets may pass by it, or not.
#[tactic(auto, using(crate::proofs::Laws::Edit::right_values), unfolding(ground::specs::Pick::pick, ground::specs::Table::edited, crate::specs::Edit::set_window_number))]
pub fn set_window(
    p: u32,
    slot: u32,
    base: u64,
    target: u64,
    k: u32,
    q: u32,
    marked: bool,
    windows: &mut [u64],
) -> Result<(), Refused>
    ensures value { call_number result ≡ set_window_number p slot base target k q windows.old }
    ensures windows_after { windows.new ≡ set_window_after p slot base target k q marked windows.old }
{
    if wrong_window(p, slot, windows.len()) {
        return Err(Refused::WrongCall);
    }
    if wrong_values(p, base, target, k, q) {
        return Err(Refused::WindowValues);
    }
    let rows = Rows {
        windows,
        p: p as u8,
    };
    let span = Span { base, k };
    if span.overlaps_any(rows, slot as u8) {
        return Err(Refused::Overlap);
    }
    let control = u64::from(control_word(k, q, marked));
    put_row(
        windows,
        p as u8,
        slot as u8,
        Window {
            base,
            target,
            control,
        },
    );
    Ok(())
}

// Empties a window: three zeros.
#[tactic(auto, unfolding(ground::specs::Pick::pick, ground::specs::Table::edited, crate::specs::Edit::empty_window_number))]
pub fn empty_window(p: u32, slot: u32, windows: &mut [u64]) -> Result<(), Refused>
    ensures value { call_number result ≡ empty_window_number p slot windows.old }
    ensures windows_after { windows.new ≡ empty_window_after p slot windows.old }
{
    if wrong_window(p, slot, windows.len()) {
        return Err(Refused::WrongCall);
    }
    put_row(
        windows,
        p as u8,
        slot as u8,
        Window {
            base: 0,
            target: 0,
            control: 0,
        },
    );
    Ok(())
}
