// Why a call is turned back: `Refusal` names each number of docs/API.md from 1 on, and `Refused` has a place beside it.
// What is public is so for the crates above, and no entry point of the library.
#![tactic(auto)]

ghost use Rattle.refusals.specs.Numbers.{number_of};

/// The numbers from 1 to 17, in order.
#[derive(Clone, Copy)]
pub enum Refusal {
    AreaTooShort,
    SheetEnds,
    NoCommand,
    NoPrime,
    WrongDegree,
    WrongIndex,
    WrongValue,
    PastTheEnd,
    NoAnswer,
    NotProper,
    PrimesDiffer,
    ProductTooHigh,
    DivisorNotMonic,
    NoRun,
    NotALine,
    LineTooLarge,
    NoPattern,
}

/// A refusal, and the place in what is read at which it comes.
#[derive(Clone, Copy)]
pub struct Refused {
    pub why: Refusal,
    pub place: usize,
}

impl Refusal {
    ghost use Rattle.std.specs.Prelude.{◌≡◌};

    /// The refusal at a place.
    pub fn at(self, place: usize) -> Refused
        ensures { result ≡ record { why = self; place = place } }
    {
        Refused { why: self, place }
    }
}

impl From<Refusal> for u8 {
    ghost use Rattle.std.specs.Prelude.{◌≡◌};

    ghost from_gives = { λ why number. number ≡ number_of why };

    fn from(why: Refusal) -> u8 {
        match why {
            Refusal::AreaTooShort => 1,
            Refusal::SheetEnds => 2,
            Refusal::NoCommand => 3,
            Refusal::NoPrime => 4,
            Refusal::WrongDegree => 5,
            Refusal::WrongIndex => 6,
            Refusal::WrongValue => 7,
            Refusal::PastTheEnd => 8,
            Refusal::NoAnswer => 9,
            Refusal::NotProper => 10,
            Refusal::PrimesDiffer => 11,
            Refusal::ProductTooHigh => 12,
            Refusal::DivisorNotMonic => 13,
            Refusal::NoRun => 14,
            Refusal::NotALine => 15,
            Refusal::LineTooLarge => 16,
            Refusal::NoPattern => 17,
        }
    }
}
