// Prints records in hexadecimal: each is written, read and written again.
#![tactic(auto)]

use fault::{BytePlace, Code, Fault};
use record::{Enrolment, Entry, GroupVolumes, PageRecord};
use std::io;

fn show(rt: &HostRuntime, bytes: &[u8]) -> io::Result<()> {
    for b in bytes {
        print!(rt; "{b:02x}")?;
    }
    println!(rt; "")
}

// More than the longest record takes.
const ROOM: usize = 80;

// A record that is written to the front of some memory, and read from there.
trait Record: Drop {
    fn write(&self, out: &mut [u8]) -> Option<usize>;

    fn read(bytes: &[u8]) -> Result<Option<Self>, Fault>;
}

impl Record for Entry {
    fn write(&self, out: &mut [u8]) -> Option<usize> {
        Entry::write(self, out, 0)
    }

    fn read(bytes: &[u8]) -> Result<Option<Entry>, Fault> {
        Ok(Entry::read(bytes, BytePlace(0))?.map(|(entry, _)| entry))
    }
}

impl Record for PageRecord {
    fn write(&self, out: &mut [u8]) -> Option<usize> {
        PageRecord::write(self, out, 0)
    }

    fn read(bytes: &[u8]) -> Result<Option<PageRecord>, Fault> {
        Ok(PageRecord::read(bytes).map(|(record, _)| record))
    }
}

// The record, as it is written after it was read.
fn show_again<R: Record>(rt: &HostRuntime, record: &R) -> io::Result<()> {
    let mut first = [0; ROOM];
    let mut again = [0; ROOM];
    if record.write(&mut first).is_none() {
        return println!(rt; "does not fit");
    }
    match R::read(&first) {
        Ok(Some(same)) => match same.write(&mut again).and_then(|n| again.get(..n)) {
            Some(bytes) => show(rt, bytes),
            None => println!(rt; "does not fit again"),
        },
        Ok(None) => println!(rt; "nothing to read"),
        Err(fault) => println!(rt; "{fault}"),
    }
}

fn show_all<R: Record>(rt: &HostRuntime, records: &[R]) -> io::Result<()> {
    for record in records {
        show_again(rt, record)?;
    }
    Ok(())
}

// What is said of bytes that begin with no entry.
fn show_fault(rt: &HostRuntime, bytes: &[u8], place: u64) -> io::Result<()> {
    match Entry::read(bytes, BytePlace(place)) {
        Ok(_) => println!(rt; "read"),
        Err(fault) => println!(rt; "{fault}"),
    }
}

fn entries() -> [Entry; 13] {
    let code = 871600000000000017;
    [
        Entry::Begin {
            quarters: 2980,
            loss_party: 7,
        },
        Entry::Enrol(Enrolment {
            code,
            brp: 258,
            supplier: 65535,
            class: 3,
            digits: 6,
            factor: 100,
            volumes: [1, 2, 3, 4294967295],
            stands: [16909060, 0, 99999, 10],
        }),
        Entry::Read {
            code,
            stands: [1, 256, 65536, 16777216],
        },
        Entry::Switch {
            code,
            brp: 1,
            supplier: 2,
        },
        Entry::Leave { code },
        Entry::Open {
            period: 1,
            price: -500000,
        },
        Entry::Post {
            kind: 3,
            brp: 5,
            supplier: 6,
            wh: 2000000000,
        },
        Entry::Weigh,
        Entry::PutBack,
        Entry::Divide,
        Entry::Withdraw,
        Entry::Settle,
        // no party of this size has two bytes
        Entry::Begin {
            quarters: 1,
            loss_party: 65536,
        },
    ]
}

fn page_records() -> [PageRecord; 6] {
    [
        PageRecord::Head {
            quarters: 1,
            loss_party: 7,
            rows: 128,
        },
        PageRecord::Group(GroupVolumes {
            brp: 1,
            supplier: 2,
            class: 16,
            month: [-33000, -1, 4500, 0],
            real: [-800000, 9223372036854775807, -9223372036854775808, 255],
        }),
        PageRecord::Period {
            period: 0,
            price: 6500,
            real_loss: -2,
            loss: -4000,
            reconciliation: 3998,
            amount: -1,
        },
        PageRecord::Register {
            brp: 1,
            supplier: 2,
            class: 0,
            register: 3,
            reconciliation: -1500000,
            amount: -9750,
        },
        PageRecord::of_fault(Fault::NotEnrolled(Code(871600000000000017))),
        PageRecord::of_fault(Fault::CutEntry(BytePlace(5))),
    ]
}

fn main(rt: HostRuntime) -> io::Result<()> {
    show_all(&rt, &entries())?;
    show_all(&rt, &page_records())?;
    show_fault(&rt, &[28, 0, 0], 14)?;
    show_fault(&rt, &[16, 0, 1, 0], 9)
}
