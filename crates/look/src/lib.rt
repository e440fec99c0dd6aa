// The look: the one question that passing asks of a partition's rows, and what they answer.
#![tactic(auto)]

ghost use Rattle.std.specs.Prelude.{◌≡◌, Bool, List, ℕ, ◌+◌, ◌-◌, ◌≤◌, ◌<◌, ◌^◌};
ghost use Rattle.look.specs.declared.Question.TheVariants.{Address, Return};
ghost use Rattle.look.specs.Look.{translated, look_up, way_back, look_of};
ghost use Rattle.look.specs.Scan.{fit_of, slot_fit, seen_of};

use rows::{Rows, Window};

// What a way makes of a packet: the partition that it comes out in, its address there (0 of a completion, which has none), and
// whether marked packets may pass by it.
#[derive(Clone, Copy, Debug, PartialEq, Eq)]
pub struct Translation {
    pub destination: u8,
    pub address: u64,
    pub marked: bool,
}

// What is asked of a partition's rows: nothing; what becomes of an address; or whether packets so marked may come back from
// another partition.
#[derive(Clone, Copy, Debug, PartialEq, Eq)]
pub enum Question {
    Silent,
    Address(u64),
    Return(u8, bool),
}

// How far a row answers a question: wholly, or but for the mark.
#[derive(Clone, Copy, Debug, PartialEq, Eq)]
pub struct Fit {
    pub whole: bool,
    pub half: bool,
}

// What a scan has seen: the lowest slot that answers wholly, if one does; and whether a slot below answers but for the mark.
#[derive(Clone, Copy, Debug, PartialEq, Eq)]
pub struct Seen {
    pub slot: Option<u8>,
    pub half: bool,
}

// How far a row, as one of `p`, answers the question.
fn fit_of(row: Window, p: u8, question: Question) -> Fit
    ensures { result ≡ fit_of question p row }
{
    match question {
        Question::Silent => Fit {
            whole: false,
            half: false,
        },
        Question::Address(a) => Fit {
            whole: row.covers(p, a),
            half: false,
        },
        Question::Return(q, marked) => Fit {
            whole: row.leads(p, q, marked),
            half: row.leads(p, q, false),
        },
    }
}

// How far slot `s` answers.
fn slot_fit(question: Question, rows: Rows, s: u8) -> Fit
    ensures { result ≡ slot_fit question rows.entry.p rows.entry.windows.now s }
{
    fit_of(rows.row(s), rows.p, question)
}

// One scan for every question.
#[tactic(auto, using(crate::proofs::Laws::Scan::turns))]
fn scan(question: Question, rows: Rows) -> Seen
    ensures { result ≡ seen_of question rows.entry.p rows.entry.windows.now }
{
    let mut half = false;
    for s in 0..Window::SLOTS {
        let fit = slot_fit(question, rows, s);
        if fit.whole {
            return Seen {
                slot: Some(s),
                half,
            };
        }
        half |= fit.half;
    }
    Seen { slot: None, half }
}

// "Address − base + target"
fn translate(w: Window, a: u64) -> Translation
    requires { (w.base ≤ a) × (a - w.base + w.target < 2 ^ 64) }
    ensures { result ≡ translated w a }
{
    Translation {
        destination: w.destination(),
        address: a - w.base + w.target,
        marked: w.passes_marked(),
    }
}

// The window that covers an address is the one of the slot that was seen.
#[tactic(auto, using(crate::proofs::Laws::Scan::over_seen))]
fn over(seen: Seen, a: u64, rows: Rows) -> Option<Translation>
    requires { seen ≡ seen_of (Address a) rows.p rows.windows.now }
    ensures { result ≡ look_up rows.entry.windows.now rows.entry.p a }
{
    let s = seen.slot?;
    Some(translate(rows.row(s), a))
}

// The way back is there where some row leads: for packets so marked where one answers wholly.
#[tactic(auto, using(crate::proofs::Laws::Scan::back_seen))]
fn back(seen: Seen, p: u8) -> Option<Translation>
    ensures { (q : ℕ) (marked : Bool) (windows : List ℕ) → seen ≡ seen_of (Return q marked) p windows → result ≡ way_back windows p q marked }
{
    let marked = seen.slot.is_some();
    (marked | seen.half).then_some(Translation {
        destination: p,
        address: 0,
        marked,
    })
}

// Asks the rows of a partition: `None` where there is no way.
pub fn ask(question: Question, rows: Rows) -> Option<Translation>
    ensures { result ≡ look_of question rows.entry.p rows.entry.windows.now }
{
    let seen = scan(question, rows);
    match question {
        Question::Silent => None,
        Question::Address(a) => over(seen, a, rows),
        Question::Return(_, _) => back(seen, rows.p),
    }
}
