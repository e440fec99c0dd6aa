// "Passing a packet from partition p": the decision, in the list's order, as R-3 and R-4 amend it. It only reads. First the gate; then
// what packet and numbers say; then one question to the windows; then what follows from their answer.
ghost use Rattle.std.specs.Prelude.{◌≡◌};
ghost use Rattle.routing.specs.Rule.{
  wrong_lengths,
  gate_of,
  owner_plan,
  held_plan,
  completion_plan,
  plan_of,
  planned,
  whose,
  question_of,
  to_destination,
  through_entry,
  is_stopped,
  through_mark,
  over_way,
  back_mark,
  back_way,
  finish_of,
};

use crate::refusal::Refusal;
use header::words::Header;
use logs::Logs;
use look::{Question, Translation};
use numbers::entries;
use numbers::entries::{Entry, Numbers, Partition};
use rows::Window;
use tlp::form;
use tlp::form::{Packet, Rule};

// The shortest Out: 16 bytes of header and 4,096 of data.
#[derive(Clone, Copy)]
pub struct Out {}

impl Out {
    pub const LENGTH: usize = 4112;
}

// What packet and numbers say before the windows are asked, where they refuse nothing: a request would go over; or a completion back,
// under this ID, to the owner of the entry of this index.
#[derive(Clone, Copy, Debug, PartialEq, Eq)]
pub enum Plan {
    Over,
    Back(u16, u8),
}

// The way of a packet that is not refused: over, by this translation and the entry of this index; or back, under this ID and to the
// owner of the entry of this index.
#[derive(Clone, Copy, Debug, PartialEq, Eq)]
pub enum Way {
    Goes(Translation, u16),
    Comes(u16, u8),
}

// A packet past the gate: the partition that it comes from, its header words, and the numbers.
#[derive(Clone, Copy)]
pub struct Carried<'a> {
    pub p: u8,
    pub h: Header,
    pub numbers: &'a [u32],
}

// 1: "partition above 15, a table of another length, Out too short".
fn wrong_call(p: u32, windows: usize, numbers: usize, logs: usize, out: usize) -> bool
    ensures { result ≡ wrong_lengths p windows numbers logs out }
{
    (15 < p)
        | (windows != Window::LENGTH)
        | (numbers != Numbers::LENGTH)
        | (logs != Logs::LENGTH)
        | (out < Out::LENGTH)
}

// The gate, which every call comes to first: 1, then 2, "sender inactive". Of the windows, the logs and Out the lengths are asked.
#[tactic(auto, using(ground::proofs::Laws::Pick::decide), unfolding(crate::specs::Rule::gate_of))]
pub fn enter(
    p: u32,
    windows: usize,
    numbers: &[u32],
    logs: usize,
    out: usize,
) -> Result<(), Refusal>
    ensures { result ≡ gate_of p windows numbers.now logs out }
{
    if wrong_call(p, windows, numbers.len(), logs, out) {
        return Err(Refusal::WrongCall);
    }
    let sender = Partition {
        numbers,
        p: p as u8,
    };
    if !sender.is_active() {
        return Err(Refusal::SenderInactive);
    }
    Ok(())
}

// What packet and numbers say.
impl Carried<'_> {
    // "P is i div 4; p must differ from q, be active", or 9.
    #[tactic(auto, using(ground::proofs::Laws::Pick::decide), unfolding(crate::specs::Rule::owner_plan))]
    fn owner_plan(self, id: u16, i: u8) -> Result<Plan, Refusal>
        ensures { result ≡ owner_plan id i self.entry.p self.entry.numbers.now }
    {
        let owner = Partition {
            numbers: self.numbers,
            p: i / 4,
        };
        if (owner.p != self.p) & owner.is_active() {
            return Ok(Plan::Back(id, i));
        }
        Err(Refusal::NotPassable)
    }

    // "Entry i held", or 9.
    fn held_plan(self, entry: Entry, i: u8) -> Result<Plan, Refusal>
        ensures { result ≡ held_plan entry i self.entry.p self.entry.numbers.now }
    {
        match entry {
            Entry::Free => Err(Refusal::NotPassable),
            Entry::Held(id) => self.owner_plan(id, i),
        }
    }

    // "The requester ID must be 256 × bus(q) + 64 + i with i in 0..63", or 9.
    #[tactic(auto, using(ground::proofs::Laws::Pick::decide), unfolding(crate::specs::Rule::completion_plan))]
    fn completion_plan(self, bus: u32) -> Result<Plan, Refusal>
        ensures { result ≡ completion_plan self.entry.p bus self.entry.h self.entry.numbers.now }
    {
        let id = self.h.completion_requester_id();
        let i = (id % 64) as u8;
        if u64::from(id) == 256 * u64::from(bus) + 64 + u64::from(i) {
            return self.held_plan(entries::entry_at(self.numbers, u16::from(i)), i);
        }
        Err(Refusal::NotPassable)
    }

    // 31, 4, and 32 to 36 by the packet layer; then a request; or a completion, by the header words that were read with it.
    fn packet_plan(self, read: Result<Packet, Rule>, bus: u32) -> Result<Plan, Refusal>
        ensures { result ≡ plan_of read self.entry.p bus self.entry.numbers.now }
    {
        match read? {
            Packet::Request(_) => Ok(Plan::Over),
            Packet::Completion(h) => Carried { h, ..self }.completion_plan(bus),
        }
    }

    // What a packet of `n` bytes with these header words and the numbers say.
    pub fn plan(self, n: usize) -> Result<Plan, Refusal>
        ensures { result ≡ planned n self.entry.h self.entry.p self.entry.numbers.now }
    {
        let sender = Partition {
            numbers: self.numbers,
            p: self.p,
        };
        self.packet_plan(form::form(n, self.h), sender.bus())
    }
}

// Whose windows are asked: the sender's, or the owner's.
pub fn whose(plan: Result<Plan, Refusal>, p: u8) -> u8
    ensures { result ≡ whose plan p }
{
    match plan {
        Ok(Plan::Back(_, i)) => i / 4,
        Ok(Plan::Over) => p,
        Err(_) => p,
    }
}

// What they are asked: of a packet that is refused before, nothing, so that every packet has its one look.
pub fn question(plan: Result<Plan, Refusal>, p: u8, h: Header) -> Question
    ensures { result ≡ question_of plan p h }
{
    match plan {
        Ok(Plan::Back(_, _)) => Question::Return(p, h.is_poisoned()),
        Ok(Plan::Over) => Question::Address(h.address()),
        Err(_) => Question::Silent,
    }
}

// What follows from the windows' answer.
impl Carried<'_> {
    // 8, "destination inactive"; or it goes, by entry `i`.
    #[tactic(auto, using(ground::proofs::Laws::Pick::decide), unfolding(crate::specs::Rule::to_destination))]
    fn to_destination(self, t: Translation, i: u16) -> Result<Way, Refusal>
        ensures { result ≡ to_destination t i self.entry.numbers.now }
    {
        let destination = Partition {
            numbers: self.numbers,
            p: t.destination,
        };
        if destination.is_active() {
            return Ok(Way::Goes(t, i));
        }
        Err(Refusal::DestinationInactive)
    }

    // 7, "no entry"; or on.
    fn through_entry(self, found: Option<u16>, t: Translation) -> Result<Way, Refusal>
        ensures { result ≡ through_entry found t self.entry.numbers.now }
    {
        self.to_destination(t, found.ok_or(Refusal::NoEntry)?)
    }

    // "EP set", where the bit is absent.
    fn is_stopped(self, bit: bool) -> bool
        ensures { result ≡ is_stopped self.entry.h bit }
    {
        self.h.is_poisoned() & !bit
    }

    // 5, "EP set", where the window lets no marked packet pass; or on.
    #[tactic(auto, using(ground::proofs::Laws::Pick::decide), unfolding(crate::specs::Rule::through_mark))]
    fn through_mark(self, t: Translation) -> Result<Way, Refusal>
        ensures { result ≡ through_mark t self.entry.p self.entry.h self.entry.numbers.now }
    {
        if self.is_stopped(t.marked) {
            return Err(Refusal::Poisoned);
        }
        let sender = Partition {
            numbers: self.numbers,
            p: self.p,
        };
        self.through_entry(sender.find(self.h.requester_id()), t)
    }

    // Requests: 6, "no window"; then 5, 7, 8.
    fn over(self, look: Option<Translation>) -> Result<Way, Refusal>
        ensures { result ≡ over_way look self.entry.p self.entry.h self.entry.numbers.now }
    {
        self.through_mark(look.ok_or(Refusal::NoWindow)?)
    }

    // 5, "EP set", where no window of the owner to the sender lets marked packets pass; or it comes back.
    #[tactic(auto, using(ground::proofs::Laws::Pick::decide), unfolding(crate::specs::Rule::back_mark))]
    fn back_mark(self, t: Translation, id: u16, i: u8) -> Result<Way, Refusal>
        ensures { result ≡ back_mark t id i self.entry.h }
    {
        if self.is_stopped(t.marked) {
            return Err(Refusal::Poisoned);
        }
        Ok(Way::Comes(id, i))
    }

    // Completions: 9, where the owner has no window to the sender; then 5.
    fn back(self, look: Option<Translation>, id: u16, i: u8) -> Result<Way, Refusal>
        ensures { result ≡ back_way look id i self.entry.h }
    {
        self.back_mark(look.ok_or(Refusal::NotPassable)?, id, i)
    }

    // The way of a plan, by what the windows answered; what was refused stays refused.
    pub fn finish(
        self,
        plan: Result<Plan, Refusal>,
        look: Option<Translation>,
    ) -> Result<Way, Refusal>
        ensures { result ≡ finish_of plan look self.entry.p self.entry.h self.entry.numbers.now }
    {
        match plan? {
            Plan::Over => self.over(look),
            Plan::Back(id, i) => self.back(look, id, i),
        }
    }
}
