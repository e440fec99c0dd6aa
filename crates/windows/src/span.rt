// The addresses of a window, and whether they overlap those of another.
ghost use Rattle.std.specs.Prelude.{◌≡◌, ◌%◌, ◌^◌, ◌<◌};
ghost use Rattle.windows.specs.Edit.{overlap, row_overlaps, other_overlaps, overlaps};

use rows::{Rows, Window};

// The 2^k addresses from the base on, which is a multiple of 2^k.
#[derive(Clone, Copy)]
pub(crate) struct Span {
    pub base: u64,
    pub k: u32,
    ghost sized: { k < 64 },
    ghost aligned: { base % 2 ^ k ≡ 0 },
}

impl Span {
    // Two spans overlap: one begins inside the other. Aligned spans never overlap in part: one lies in the other, or they do not
    // touch. So cut all addresses into blocks of the larger size: the spans overlap exactly if both bases lie in the same block.
    #[tactic(auto, using(crate::proofs::Laws::Overlap::blocks))]
    fn overlaps(self, other: Span) -> bool
        ensures { result ≡ overlap self.base self.k other.base other.k }
    {
        let larger = self.k.max(other.k);
        self.base >> larger == other.base >> larger
    }

    // The row is in force, and the span overlaps it.
    #[tactic(auto, using(rows::proofs::Laws::Row::force_small, rows::proofs::Laws::Row::force_base))]
    fn overlaps_row(self, p: u8, row: Window) -> bool
        ensures { result ≡ row_overlaps p self.base self.k row }
    {
        row.in_force(p)
            && self.overlaps(Span {
                base: row.base,
                k: row.exponent(),
            })
    }

    // Slot `s` is not `slot`, and the span overlaps its row.
    fn overlaps_other(self, rows: Rows, slot: u8, s: u8) -> bool
        ensures { result ≡ other_overlaps rows.entry.windows.now rows.entry.p slot self.base self.k s }
    {
        (s != slot) & self.overlaps_row(rows.p, rows.row(s))
    }

    // Refusal 11: "overlaps another in-force row of the owner".
    #[tactic(auto, using(crate::proofs::Laws::Edit::slots_scanned))]
    pub(crate) fn overlaps_any(self, rows: Rows, slot: u8) -> bool
        ensures { result ≡ overlaps rows.entry.windows.now rows.entry.p slot self.base self.k }
    {
        for s in 0..Window::SLOTS {
            if self.overlaps_other(rows, slot, s) {
                return true;
            }
        }
        false
    }
}
