// The records of a page as bytes.
ghost use Rattle.std.specs.Prelude.{◌≡◌, true};
ghost use Rattle.record.specs.Format.{all_fit};
ghost use Rattle.record.specs.Family.{fields, Puts, Writable, Writes};
ghost use Rattle.record.specs.Pages.{pages};

use crate::kind::PageKind;
use crate::page::{GroupVolumes, PageRecord};
use crate::put::{Filled, field, party, put_checked};

impl GroupVolumes {
    // The fields of the record.
    fn fields(&self) -> [Filled; 12]
        ensures value { result ≡ fields pages (PageRecord.Group self.now) }
        ensures writable { all_fit result ≡ true → Writable pages (PageRecord.Group self.now) }
    {
        [
            field(PageKind::Group.number()),
            party(self.brp),
            party(self.supplier),
            field(self.class),
            field(self.month[0]),
            field(self.month[1]),
            field(self.month[2]),
            field(self.month[3]),
            field(self.real[0]),
            field(self.real[1]),
            field(self.real[2]),
            field(self.real[3]),
        ]
    }
}

impl PageRecord {
    // Writes the fields of the record. It is apart from `write`, which has only the laws of the family left to show,
    // and as long as the format, with one arm for each kind: a function for each would name the fields once more.
    fn put_record(&self, out: &mut [u8], at: usize) -> Option<usize>
        ensures { Puts pages self.now at out.old out.new result }
    {
        let kind = field(self.kind().number());
        match self {
            PageRecord::Head {
                quarters,
                loss_party,
                rows,
            } => put_checked(
                out,
                at,
                &[kind, field(*quarters), party(*loss_party), field(*rows)],
            ),
            PageRecord::Group(group) => put_checked(out, at, &group.fields()),
            PageRecord::Period {
                period,
                price,
                real_loss,
                loss,
                reconciliation,
                amount,
            } => put_checked(
                out,
                at,
                &[
                    kind,
                    field(*period),
                    field(*price),
                    field(*real_loss),
                    field(*loss),
                    field(*reconciliation),
                    field(*amount),
                ],
            ),
            PageRecord::Register {
                brp,
                supplier,
                class,
                register,
                reconciliation,
                amount,
            } => put_checked(
                out,
                at,
                &[
                    kind,
                    party(*brp),
                    party(*supplier),
                    field(*class),
                    field(*register),
                    field(*reconciliation),
                    field(*amount),
                ],
            ),
            PageRecord::Refusal {
                number,
                layer,
                first,
                second,
                third,
            } => put_checked(
                out,
                at,
                &[
                    kind,
                    field(*number),
                    field(*layer),
                    field(*first),
                    field(*second),
                    field(*third),
                ],
            ),
        }
    }

    // Writes the record at the place `at`, and says which place comes next.
    // Writes nothing where a party is too large for the record, or the memory ends too early.
    // The memory comes whole and with a place, since a caller may give any place in it: what stands before is kept, too.
    pub fn write(&self, out: &mut [u8], at: usize) -> Option<usize>
        ensures { Writes pages self.now at out.old out.new result }
    {
        self.put_record(out, at)
    }
}
