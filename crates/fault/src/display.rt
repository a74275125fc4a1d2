// Faults in plain words, for people.
ghost use Rattle.std.specs.Prelude.{◌≡◌, Some};
ghost use Rattle.fault.specs.Words.{direction_words, fault_words, limit_words, question_words, table_words};

use crate::cause::{Direction, Fault, Limit, Question, TableKind};
use std::fmt;

impl TableKind {
    // What its rows are.
    pub fn words(self) -> &'static str
        ensures { result.now ≡ table_words self }
    {
        match self {
            TableKind::Connections => "connection",
            TableKind::Groups => "group",
        }
    }
}

impl fmt::Display for TableKind {
    ghost output = { λ table. Some (table_words table) };

    fn fmt<W: fmt::Write>(&self, f: &mut fmt::Formatter<W>) -> fmt::Result {
        f.write_str(self.words())
    }
}

impl fmt::Display for Direction {
    ghost output = { λ direction. Some (direction_words direction) };

    fn fmt<W: fmt::Write>(&self, f: &mut fmt::Formatter<W>) -> fmt::Result {
        f.write_str(match self {
            Direction::Offtake => "offtake",
            Direction::FeedIn => "feed-in",
        })
    }
}

impl fmt::Display for Limit {
    ghost output = { λ limit. Some (limit_words limit) };

    fn fmt<W: fmt::Write>(&self, f: &mut fmt::Formatter<W>) -> fmt::Result {
        match self {
            Limit::Weights => write!(f, "1: weights"),
            Limit::Residual => write!(f, "2: residual"),
            Limit::Postings => write!(f, "3: postings"),
            Limit::StandingSum => write!(f, "4: standing sum"),
            Limit::Advances => write!(f, "5: advances"),
            Limit::Volume => write!(f, "6: volume"),
        }
    }
}

impl fmt::Display for Question {
    ghost output = { λ question. Some (question_words question) };

    fn fmt<W: fmt::Write>(&self, f: &mut fmt::Formatter<W>) -> fmt::Result {
        write!(
            f,
            "class {}, direction {}, quarter {}",
            self.class, self.direction, self.quarter.0
        )
    }
}

impl fmt::Display for Fault {
    ghost output = { λ x. Some (fault_words x) };

    fn fmt<W: fmt::Write>(&self, f: &mut fmt::Formatter<W>) -> fmt::Result {
        match *self {
            Fault::OutOfRange(position) => write!(
                f,
                "argument {} is outside its range",
                position.0
            ),
            Fault::BadCode(code) => write!(f, "{} is no connection code", code.0),
            Fault::CodePresent(code) => write!(f, "connection {} is enrolled already", code.0),
            Fault::NotEnrolled(code) => write!(f, "connection {} is not enrolled", code.0),
            Fault::StandTooLarge(register) => write!(
                f,
                "the stand of register {} has more digits than the meter",
                register.number()
            ),
            Fault::NoPlace(table) => write!(f, "there is no place for another {table}"),
            Fault::MonthFull(quarter) => write!(
                f,
                "the month is full after {} quarters",
                quarter.0
            ),
            Fault::MonthUnfinished(quarter) => write!(
                f,
                "the month has only {} divided quarters",
                quarter.0
            ),
            Fault::NotRead(code) => write!(f, "connection {} is not read this quarter", code.0),
            Fault::FractionAbsent(question) => write!(f, "no fraction for {question}"),
            Fault::ForeignTables => write!(f, "the tables do not belong to this book"),
            Fault::LimitPassed(limit) => write!(f, "limit {limit}"),
            Fault::NothingToShare(quarter) => write!(
                f,
                "quarter {} has a residual, no weights",
                quarter.0
            ),
            Fault::PageTooShort(length) => write!(f, "the page needs {} bytes of memory", length.0),
            Fault::NotAdmitted(place) => write!(
                f,
                "the entry at byte {} is not admitted now",
                place.0
            ),
            Fault::UnknownKind(place) => write!(
                f,
                "the entry at byte {} is of unknown kind",
                place.0
            ),
            Fault::CutEntry(place) => write!(f, "the entry at byte {} is cut off", place.0),
        }
    }
}
