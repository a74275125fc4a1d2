// Bytes as the records of a page.
ghost use Rattle.std.specs.Prelude.{◌≡◌, ℕ, List, length};
ghost use Rattle.record.specs.Format.{Reads, total};
ghost use Rattle.record.specs.Kinds.{page_layout};
ghost use Rattle.record.specs.Family.{Begins};
ghost use Rattle.record.specs.Pages.{page_kind_of, page_values, pages, PageRegisters, Apart, FromBody, TakenApart, PageReading, ReadsRecord};

use crate::apart::take_apart;
use crate::field::Party;
use crate::kind::PageKind;
use crate::number::{read, read_four};
use crate::page::{GroupVolumes, PageRecord, Part};

fn group_volumes(body: &[u8]) -> GroupVolumes
    requires { length body.now ≡ total (page_layout PageKind.Group) }
    ensures values { Reads body.now 0 (page_layout PageKind.Group) (page_values (PageRecord.Group result)) }
    ensures registers { PageRegisters (PageRecord.Group result) }
{
    GroupVolumes {
        brp: read::<Party>(body, 0).0,
        supplier: read::<Party>(body, 2).0,
        class: read(body, 4),
        month: read_four(body, 5),
        real: read_four(body, 37),
    }
}

// The record that has this kind and this body.
fn record_of(kind: PageKind, body: &[u8]) -> PageRecord
    requires { length body.now ≡ total (page_layout kind) }
    ensures kind { page_kind_of result ≡ kind }
    ensures values { Reads body.now 0 (page_layout kind) (page_values result) }
    ensures registers { PageRegisters result }
{
    match kind {
        PageKind::Head => PageRecord::Head {
            quarters: read(body, 0),
            loss_party: read::<Party>(body, 2).0,
            rows: read(body, 4),
        },
        PageKind::Group => PageRecord::Group(group_volumes(body)),
        PageKind::Period => PageRecord::Period {
            period: read(body, 0),
            price: read(body, 1),
            real_loss: read(body, 9),
            loss: read(body, 17),
            reconciliation: read(body, 25),
            amount: read(body, 33),
        },
        PageKind::Register => PageRecord::Register {
            brp: read::<Party>(body, 0).0,
            supplier: read::<Party>(body, 2).0,
            class: read(body, 4),
            register: read(body, 5),
            reconciliation: read(body, 6),
            amount: read(body, 14),
        },
        PageKind::Refusal => PageRecord::Refusal {
            number: read(body, 0),
            layer: read(body, 1),
            first: read(body, 2),
            second: read(body, 10),
            third: read(body, 18),
        },
    }
}

impl<'a> Part<'a> {
    // Takes the first record of a page apart; None where no whole record stands at the front of the bytes.
    pub fn take(bytes: &'a [u8]) -> Option<Part<'a>>
        ensures { TakenApart bytes.now result }
    {
        let (kind, body, rest) = take_apart(bytes).ok()?;
        Some(Part { kind, body, rest })
    }

    // The record that the parts are of.
    fn record(&self) -> PageRecord
        requires { length self.now.body.now ≡ total (page_layout self.now.kind) }
        ensures { (bytes : List ℕ) → Apart bytes self.now → Begins pages bytes result self.now.rest.now }
    {
        record_of(self.kind, self.body)
    }
}

// Which answer comes. It is apart from `PageRecord::read`, all of whose promises follow from this one.
fn first_record(bytes: &[u8]) -> Option<(PageRecord, &[u8])>
    ensures { PageReading bytes.now result }
{
    let part = Part::take(bytes)?;
    Some((part.record(), part.rest))
}

impl PageRecord {
    // The fields of a body; None where it has not the length of its kind.
    pub fn from_body(kind: PageKind, body: &[u8]) -> Option<PageRecord>
        ensures { FromBody kind body.now result }
    {
        if body.len() != kind.length() {
            return None;
        }
        Some(record_of(kind, body))
    }

    // Takes the first record off the bytes of a page, and gives what comes behind it.
    // None where no whole record stands at the front of the bytes.
    pub fn read(bytes: &[u8]) -> Option<(PageRecord, &[u8])>
        ensures { ReadsRecord bytes.now result }
    {
        first_record(bytes)
    }
}
