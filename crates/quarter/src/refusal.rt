// Why a text is refused.
ghost use Rattle.std.specs.Prelude.{◌≡◌};
ghost use Rattle.quarter.specs.declared.refusal.Stop.TheVariants.{Refused, Memory};

use fault::Fault;
use std::alloc::{AllocError, AllocFailed};
use std::fmt;

#[derive(Clone, Copy)]
pub enum Reason {
    // a word that no line has at this place
    UnknownWord,
    // too few words for a line of this kind, or too many, or others
    WrongForm,
    // the word at this place is no whole number
    NotANumber(u8),
    // the number at this place is outside its range
    OutOfRange(u8),
    // bytes that are no text
    NotText,
    // the group was given on an earlier line
    GroupTwice,
    // the quarter cannot be divided
    Quarter(Fault),
}

// A reason and the line that gave it, counted from 1; a fault of the whole quarter is named at the last line.
#[derive(Clone, Copy)]
pub struct Refusal {
    pub line: usize,
    pub reason: Reason,
}

// A quarter is refused, or memory runs out.
#[derive(Clone, Copy)]
pub enum Stop {
    Refused(Refusal),
    Memory,
}

impl Reason {
    // The refusal of a line for this reason.
    pub fn at(self, line: usize) -> Refusal
        ensures { result ≡ record { line = line; reason = self } }
    {
        Refusal { line, reason: self }
    }
}

impl From<Refusal> for Stop {
    ghost from_gives = { λ refusal stop. stop ≡ Refused refusal };

    fn from(refusal: Refusal) -> Stop {
        Stop::Refused(refusal)
    }
}

impl From<AllocError> for Stop {
    ghost from_gives = { λ _ stop. stop ≡ Memory };

    fn from(_e: AllocError) -> Stop {
        Stop::Memory
    }
}

impl<T: Drop> From<AllocFailed<T>> for Stop {
    ghost from_gives = { λ _ stop. stop ≡ Memory };

    fn from(_e: AllocFailed<T>) -> Stop {
        Stop::Memory
    }
}

impl fmt::Display for Reason {
    fn fmt<W: fmt::Write>(&self, f: &mut fmt::Formatter<W>) -> fmt::Result {
        match self {
            Reason::UnknownWord => write!(f, "unknown word"),
            Reason::WrongForm => write!(f, "these words make no line of this kind"),
            Reason::NotANumber(place) => write!(f, "word {place} is no whole number"),
            Reason::OutOfRange(place) => write!(f, "word {place} is out of range"),
            Reason::NotText => write!(f, "these bytes are no text"),
            Reason::GroupTwice => write!(f, "this group was given on an earlier line"),
            Reason::Quarter(fault) => write!(f, "{fault} (refusal {})", fault.notice().number),
        }
    }
}

impl fmt::Display for Stop {
    fn fmt<W: fmt::Write>(&self, f: &mut fmt::Formatter<W>) -> fmt::Result {
        match self {
            Stop::Refused(Refusal { line, reason }) => write!(f, "line {line}: {reason}"),
            Stop::Memory => write!(f, "out of memory"),
        }
    }
}
