// Bytes as entries.
ghost use Rattle.std.specs.Prelude.{◌≡◌, length};
ghost use Rattle.record.specs.Format.{Reads, total};
ghost use Rattle.record.specs.Kinds.{entry_layout};
ghost use Rattle.record.specs.Entries.{kind_of, entry_values, Registers, Reading, ReadsEntry};

use crate::apart::{Lack, take_apart};
use crate::entry::{Enrolment, Entry};
use crate::field::Party;
use crate::kind::EntryKind;
use crate::number::{read, read_four};
use fault::{BytePlace, Fault};

fn enrolment(body: &[u8]) -> Enrolment
    requires { length body.now ≡ total (entry_layout EntryKind.Enrol) }
    ensures values { Reads body.now 0 (entry_layout EntryKind.Enrol) (entry_values (Entry.Enrol result)) }
    ensures registers { Registers (Entry.Enrol result) }
{
    Enrolment {
        code: read(body, 0),
        brp: read::<Party>(body, 8).0,
        supplier: read::<Party>(body, 10).0,
        class: read(body, 12),
        digits: read(body, 13),
        factor: read(body, 14),
        volumes: read_four(body, 15),
        stands: read_four(body, 31),
    }
}

// The entry whose record has this kind and this body.
fn entry_of(kind: EntryKind, body: &[u8]) -> Entry
    requires { length body.now ≡ total (entry_layout kind) }
    ensures kind { kind_of result ≡ kind }
    ensures values { Reads body.now 0 (entry_layout kind) (entry_values result) }
    ensures registers { Registers result }
{
    match kind {
        EntryKind::Begin => Entry::Begin {
            quarters: read(body, 0),
            loss_party: read::<Party>(body, 2).0,
        },
        EntryKind::Enrol => Entry::Enrol(enrolment(body)),
        EntryKind::Read => Entry::Read {
            code: read(body, 0),
            stands: read_four(body, 8),
        },
        EntryKind::Switch => Entry::Switch {
            code: read(body, 0),
            brp: read::<Party>(body, 8).0,
            supplier: read::<Party>(body, 10).0,
        },
        EntryKind::Leave => Entry::Leave {
            code: read(body, 0),
        },
        EntryKind::Open => Entry::Open {
            period: read(body, 0),
            price: read(body, 1),
        },
        EntryKind::Post => Entry::Post {
            kind: read(body, 0),
            brp: read::<Party>(body, 1).0,
            supplier: read::<Party>(body, 3).0,
            wh: read(body, 5),
        },
        EntryKind::Weigh => Entry::Weigh,
        EntryKind::PutBack => Entry::PutBack,
        EntryKind::Divide => Entry::Divide,
        EntryKind::Withdraw => Entry::Withdraw,
        EntryKind::Settle => Entry::Settle,
    }
}

// Which answer comes. It is apart from `Entry::read`, all of whose promises follow from this one.
fn first_entry(bytes: &[u8], place: BytePlace) -> Result<Option<(Entry, &[u8])>, Fault>
    ensures { Reading bytes.now place result }
{
    match take_apart(bytes) {
        Ok((kind, body, rest)) => Ok(Some((entry_of(kind, body), rest))),
        Err(Lack::End) => Ok(None),
        Err(Lack::Unknown) => Err(Fault::UnknownKind(place)),
        Err(Lack::Cut) => Err(Fault::CutEntry(place)),
    }
}

impl Entry {
    // Takes the first entry off the bytes of a stream, and gives what comes behind it; None where there are no more bytes.
    // `place` is that of the first byte in the whole stream, which a fault names.
    pub fn read(bytes: &[u8], place: BytePlace) -> Result<Option<(Entry, &[u8])>, Fault>
        ensures { ReadsEntry bytes.now place result }
    {
        first_entry(bytes, place)
    }
}
