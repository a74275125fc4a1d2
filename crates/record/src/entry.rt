// The entries of a stream.
ghost use Rattle.std.specs.Prelude.{◌≡◌};
ghost use Rattle.record.specs.Entries.{kind_of};

use crate::kind::EntryKind;

// A connection that joins the book.
#[derive(Clone, Copy)]
pub struct Enrolment {
    pub code: u64,
    pub brp: u64,
    pub supplier: u64,
    pub class: u8,
    // how many the meter has
    pub digits: u8,
    pub factor: u8,
    // standard year volumes in kWh, by register
    pub volumes: [u32; 4],
    // by register
    pub stands: [u32; 4],
}

// What a stream asks of the book. A field takes every number of its type: which are in range is the book's to say.
// Parties have a wide type, since only the record knows how many bytes they take.
#[derive(Clone, Copy)]
pub enum Entry {
    Begin {
        quarters: u16,
        loss_party: u64,
    },
    Enrol(Enrolment),
    Read {
        code: u64,
        stands: [u32; 4],
    },
    Switch {
        code: u64,
        brp: u64,
        supplier: u64,
    },
    Leave {
        code: u64,
    },
    // price in cents per MWh
    Open {
        period: u8,
        price: i32,
    },
    Post {
        kind: u8,
        brp: u64,
        supplier: u64,
        wh: u32,
    },
    Weigh,
    PutBack,
    Divide,
    Withdraw,
    Settle,
}

impl Entry {
    pub fn kind(&self) -> EntryKind
        ensures { result ≡ kind_of self.now }
    {
        match self {
            Entry::Begin { .. } => EntryKind::Begin,
            Entry::Enrol(_) => EntryKind::Enrol,
            Entry::Read { .. } => EntryKind::Read,
            Entry::Switch { .. } => EntryKind::Switch,
            Entry::Leave { .. } => EntryKind::Leave,
            Entry::Open { .. } => EntryKind::Open,
            Entry::Post { .. } => EntryKind::Post,
            Entry::Weigh => EntryKind::Weigh,
            Entry::PutBack => EntryKind::PutBack,
            Entry::Divide => EntryKind::Divide,
            Entry::Withdraw => EntryKind::Withdraw,
            Entry::Settle => EntryKind::Settle,
        }
    }
}
