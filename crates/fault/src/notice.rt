// Faults as the numbers of a fault record.
ghost use Rattle.std.specs.Prelude.{◌≡◌};
ghost use Rattle.fault.specs.Notices.{notice, layer_number};

use crate::cause::Fault;

// Where a fault arose.
#[derive(Clone, Copy, PartialEq, Eq, Debug)]
pub enum Layer {
    Table = 1,
    Source = 2,
    Book = 3,
    Stream = 4,
}

// A fault as a fault record holds it: number and places are plain numbers, since that is what its bytes are, and `Fault` has the cause itself. Unused places are 0.
#[derive(Clone, Copy, PartialEq, Eq, Debug)]
pub struct Notice {
    pub number: u8,
    pub layer: Layer,
    pub first: u64,
    pub second: u64,
    pub third: u64,
}

impl From<Layer> for u8 {
    ghost from_gives = { λ layer number. number ≡ layer_number layer };

    fn from(layer: Layer) -> u8 {
        layer as u8
    }
}

// The conversion by the name that callers have for it.
impl Layer {
    pub fn number(self) -> u8
        ensures { result ≡ layer_number self }
    {
        u8::from(self)
    }
}

// A notice with one place at most.
fn says(number: u8, layer: Layer, first: u64) -> Notice
    ensures { result ≡ record { number = number; layer = layer; first = first; second = 0; third = 0 } }
{
    Notice {
        number,
        layer,
        first,
        second: 0,
        third: 0,
    }
}

impl Fault {
    pub fn notice(self) -> Notice
        ensures { result ≡ notice self }
    {
        match self {
            Fault::OutOfRange(position) => says(1, Layer::Book, u64::from(position.0)),
            Fault::BadCode(code) => says(2, Layer::Book, code.0),
            Fault::CodePresent(code) => says(3, Layer::Table, code.0),
            Fault::NotEnrolled(code) => says(4, Layer::Table, code.0),
            Fault::StandTooLarge(register) => says(5, Layer::Book, u64::from(register.number())),
            Fault::NoPlace(table) => says(6, Layer::Table, u64::from(table.number())),
            Fault::MonthFull(quarter) => says(7, Layer::Book, u64::from(quarter.0)),
            Fault::MonthUnfinished(quarter) => says(8, Layer::Book, u64::from(quarter.0)),
            Fault::NotRead(code) => says(9, Layer::Book, code.0),
            Fault::FractionAbsent(question) => Notice {
                number: 10,
                layer: Layer::Source,
                first: u64::from(question.class),
                second: u64::from(question.direction),
                third: u64::from(question.quarter.0),
            },
            Fault::ForeignTables => says(11, Layer::Book, 0),
            Fault::LimitPassed(limit) => says(12, Layer::Book, u64::from(limit.number())),
            Fault::NothingToShare(quarter) => says(13, Layer::Book, u64::from(quarter.0)),
            Fault::PageTooShort(length) => says(14, Layer::Book, length.0),
            Fault::NotAdmitted(place) => says(15, Layer::Stream, place.0),
            Fault::UnknownKind(place) => says(16, Layer::Stream, place.0),
            Fault::CutEntry(place) => says(17, Layer::Stream, place.0),
        }
    }
}
