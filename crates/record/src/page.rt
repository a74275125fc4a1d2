// The records of a page, and of a refusal.
ghost use Rattle.std.specs.Prelude.{◌≡◌};
ghost use Rattle.fault.specs.Notices.{notice, layer_number};
ghost use Rattle.record.specs.Pages.{page_kind_of};

use crate::kind::PageKind;
use fault::Fault;

// The volumes of a group: a BRP, a supplier and a class.
#[derive(Clone, Copy)]
pub struct GroupVolumes {
    pub brp: u64,
    pub supplier: u64,
    pub class: u8,
    // what was allocated to the group over the month, in Wh, by register
    pub month: [i64; 4],
    // what its meters counted, in Wh, by register
    pub real: [i64; 4],
}

// What the book writes. Volumes are in Wh, prices in cents per MWh, amounts in cents.
// A field takes every number of its type, periods, registers and layers too, so that any bytes of the right length are read as they stand.
// Parties have a wide type, since only the record knows how many bytes they take.
#[derive(Clone, Copy)]
pub enum PageRecord {
    // the month: its quarters, its loss party, and how many groups the page has
    Head {
        quarters: u16,
        loss_party: u64,
        rows: u32,
    },
    Group(GroupVolumes),
    // a tariff period: its price, its losses and what the loss party is settled for
    Period {
        period: u8,
        price: i64,
        real_loss: i64,
        loss: i64,
        reconciliation: i64,
        amount: i64,
    },
    // what a group is settled for in one register
    Register {
        brp: u64,
        supplier: u64,
        class: u8,
        register: u8,
        reconciliation: i64,
        amount: i64,
    },
    // why an entry was refused
    Refusal {
        number: u8,
        layer: u8,
        first: u64,
        second: u64,
        third: u64,
    },
}

// A record as the parts of the page that it came from, and the bytes behind it.
#[derive(Clone, Copy)]
pub struct Part<'a> {
    pub kind: PageKind,
    pub body: &'a [u8],
    pub rest: &'a [u8],
}

impl PageRecord {
    pub fn kind(&self) -> PageKind
        ensures { result ≡ page_kind_of self.now }
    {
        match self {
            PageRecord::Head { .. } => PageKind::Head,
            PageRecord::Group(_) => PageKind::Group,
            PageRecord::Period { .. } => PageKind::Period,
            PageRecord::Register { .. } => PageKind::Register,
            PageRecord::Refusal { .. } => PageKind::Refusal,
        }
    }

    // The record of a refusal.
    pub fn of_fault(fault: Fault) -> PageRecord
        ensures { result ≡ PageRecord.Refusal (notice fault).number (layer_number (notice fault).layer) (notice fault).first (notice fault).second (notice fault).third }
    {
        let notice = fault.notice();
        PageRecord::Refusal {
            number: notice.number,
            layer: notice.layer.number(),
            first: notice.first,
            second: notice.second,
            third: notice.third,
        }
    }
}
