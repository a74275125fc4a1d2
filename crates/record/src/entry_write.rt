// Entries as bytes.
ghost use Rattle.std.specs.Prelude.{◌≡◌, true};
ghost use Rattle.record.specs.Format.{all_fit};
ghost use Rattle.record.specs.Family.{fields, Puts, Writable, Writes};
ghost use Rattle.record.specs.Entries.{entries};

use crate::entry::{Enrolment, Entry};
use crate::kind::EntryKind;
use crate::put::{Filled, field, party, put_checked};

impl Enrolment {
    // The fields of the record.
    fn fields(&self) -> [Filled; 15]
        ensures value { result ≡ fields entries (Entry.Enrol self.now) }
        ensures writable { all_fit result ≡ true → Writable entries (Entry.Enrol self.now) }
    {
        [
            field(EntryKind::Enrol.number()),
            field(self.code),
            party(self.brp),
            party(self.supplier),
            field(self.class),
            field(self.digits),
            field(self.factor),
            field(self.volumes[0]),
            field(self.volumes[1]),
            field(self.volumes[2]),
            field(self.volumes[3]),
            field(self.stands[0]),
            field(self.stands[1]),
            field(self.stands[2]),
            field(self.stands[3]),
        ]
    }
}

impl Entry {
    // Writes the fields of the record. It is apart from `write`, which has only the laws of the family left to show,
    // and as long as the format, with one arm for each kind: a function for each would name the fields once more.
    fn put_record(&self, out: &mut [u8], at: usize) -> Option<usize>
        ensures { Puts entries self.now at out.old out.new result }
    {
        let kind = field(self.kind().number());
        match self {
            Entry::Begin {
                quarters,
                loss_party,
            } => { put_checked(out, at, &[kind, field(*quarters), party(*loss_party)]) }
            Entry::Enrol(enrolment) => put_checked(out, at, &enrolment.fields()),
            Entry::Read { code, stands } => put_checked(
                out,
                at,
                &[
                    kind,
                    field(*code),
                    field(stands[0]),
                    field(stands[1]),
                    field(stands[2]),
                    field(stands[3]),
                ],
            ),
            Entry::Switch {
                code,
                brp,
                supplier,
            } => {
                put_checked(
                    out,
                    at,
                    &[kind, field(*code), party(*brp), party(*supplier)],
                )
            }
            Entry::Leave { code } => put_checked(out, at, &[kind, field(*code)]),
            Entry::Open { period, price } => {
                put_checked(out, at, &[kind, field(*period), field(*price)])
            }
            Entry::Post {
                kind: posting,
                brp,
                supplier,
                wh,
            } => put_checked(
                out,
                at,
                &[
                    kind,
                    field(*posting),
                    party(*brp),
                    party(*supplier),
                    field(*wh),
                ],
            ),
            Entry::Weigh | Entry::PutBack | Entry::Divide | Entry::Withdraw | Entry::Settle => {
                put_checked(out, at, &[kind])
            }
        }
    }

    // Writes the entry's record at the place `at`, and says which place comes next.
    // Writes nothing where a party is too large for the record, or the memory ends too early.
    // The memory comes whole and with a place, since a caller may give any place in it: what stands before is kept, too.
    pub fn write(&self, out: &mut [u8], at: usize) -> Option<usize>
        ensures { Writes entries self.now at out.old out.new result }
    {
        self.put_record(out, at)
    }
}
