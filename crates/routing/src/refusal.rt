// The refusals that a packet can get, and what the list says of each.
ghost use Rattle.std.specs.Prelude.{◌≡◌};
ghost use Rattle.routing.specs.Refusal.{refusal_number, answers_reads};
ghost use Rattle.routing.specs.declared.refusal.Refusal.TheVariants.{Broken};

use tlp::form::Rule;

// The refusals that a packet can get, one for each of the list's numbers: those of the packet layer as it names them.
#[derive(Clone, Copy, Debug, PartialEq, Eq)]
pub enum Refusal {
    WrongCall,
    SenderInactive,
    Broken(Rule),
    Poisoned,
    NoWindow,
    NoEntry,
    DestinationInactive,
    NotPassable,
}

// A rule of form that broke is a refusal.
impl From<Rule> for Refusal {
    ghost from_gives = { λ rule refusal. refusal ≡ Broken rule };

    fn from(broken: Rule) -> Refusal {
        Refusal::Broken(broken)
    }
}

// The list's number.
impl From<Refusal> for u32 {
    ghost from_gives = { λ refusal n. n ≡ refusal_number refusal };

    fn from(refusal: Refusal) -> u32 {
        match refusal {
            Refusal::WrongCall => 1,
            Refusal::SenderInactive => 2,
            Refusal::Broken(rule) => u32::from(rule),
            Refusal::Poisoned => 5,
            Refusal::NoWindow => 6,
            Refusal::NoEntry => 7,
            Refusal::DestinationInactive => 8,
            Refusal::NotPassable => 9,
        }
    }
}

impl Refusal {
    // The list's column "Packet": a read that is refused so is answered.
    pub fn answers_reads(self) -> bool
        ensures { result ≡ answers_reads self }
    {
        match self {
            Refusal::WrongCall => false,
            Refusal::SenderInactive => false,
            Refusal::Broken(_) => false,
            Refusal::Poisoned => true,
            Refusal::NoWindow => true,
            Refusal::NoEntry => true,
            Refusal::DestinationInactive => true,
            Refusal::NotPassable => false,
        }
    }
}
