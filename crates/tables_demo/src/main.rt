// The keyed table at three kinds of row: keyed by a number, by a triple, by sixteen bytes of text.
#![tactic(auto)]

mod kinds;
mod noted;
mod uses;

use fault::Fault;
use kinds::{Group, GroupKey, Label, Meter};
use std::io;
use tables::Table;
use uses::{drop_label, exchange_meter, lend_for_one, set_group};

fn meter(code: u64) -> Meter {
    Meter { code, stand: 0 }
}

fn group(brp: u64, supplier: u64, class: u8, volume: i64) -> Group {
    Group {
        key: GroupKey {
            brp,
            supplier,
            class,
        },
        volume,
    }
}

fn label(text: &[u8; 16], number: u32) -> Label {
    Label {
        text: *text,
        number,
    }
}

// An answer, or in words why there is none.
fn say(rt: &HostRuntime, what: &str, answer: Result<usize, Fault>) -> io::Result<()> {
    match answer {
        Ok(place) => println!(rt; "{what}: place {place}"),
        Err(fault) => println!(rt; "{what}: {fault}"),
    }
}

fn meters(rt: &HostRuntime) -> io::Result<()> {
    let mut memory = [meter(0); 5];
    let mut table = Table::new(&mut memory);
    say(rt, "meter 40", table.insert(meter(40)))?;
    say(rt, "meter 20", table.insert(meter(20)))?;
    say(rt, "meter 20 again", table.insert(meter(20)))?;
    say(rt, "meter 30", table.insert(meter(30)))?;
    // the memory has five places, and the rules allow three rows
    say(rt, "meter 10", table.insert(meter(10)))?;
    match exchange_meter(&mut table, 20, meter(50)) {
        Ok(old) => println!(rt; "exchanged: {old:?}")?,
        Err(fault) => println!(rt; "exchanged: {fault}")?,
    }
    say(rt, "seek 20", table.seek(&20))?;
    say(rt, "seek 50", table.seek(&50))?;
    for row in table.rows() {
        println!(rt; "{row:?}")?;
    }
    table.empty();
    println!(rt; "emptied: {} rows", table.len())
}

// The memory that a table was lent is the lender's again.
fn lender(rt: &HostRuntime) -> io::Result<()> {
    let mut memory = [meter(7); 2];
    match lend_for_one(&mut memory, meter(8)) {
        Ok(()) => println!(rt; "lent and back")?,
        Err(fault) => println!(rt; "lent: {fault}")?,
    }
    for row in memory {
        println!(rt; "{row:?}")?;
    }
    Ok(())
}

fn groups(rt: &HostRuntime) -> io::Result<()> {
    let mut memory = [group(0, 0, 0, 0); 3];
    let mut table = Table::new(&mut memory);
    say(rt, "group 2 1 5", table.insert(group(2, 1, 5, 7)))?;
    say(rt, "group 1 9 9", table.insert(group(1, 9, 9, 8)))?;
    say(rt, "group 2 1 4", table.insert(group(2, 1, 4, 9)))?;
    say(rt, "group 2 2 0", table.insert(group(2, 2, 0, 0)))?;
    match set_group(&mut table, group(2, 1, 5, -70)) {
        Ok(()) => println!(rt; "set")?,
        Err(fault) => println!(rt; "set: {fault}")?,
    }
    for row in table.rows() {
        println!(rt; "{row:?}")?;
    }
    Ok(())
}

fn labels(rt: &HostRuntime) -> io::Result<()> {
    let mut memory = [label(b"                ", 0); 4];
    let mut table = Table::new(&mut memory);
    say(rt, "residual", table.insert(label(b"residual        ", 1)))?;
    say(
        rt,
        "allocated volume",
        table.insert(label(b"allocated volume", 2)),
    )?;
    say(rt, "reserve", table.insert(label(b"reserve         ", 3)))?;
    match drop_label(&mut table, b"residual        ") {
        Ok(()) => println!(rt; "dropped")?,
        Err(fault) => println!(rt; "dropped: {fault}")?,
    }
    for row in table.rows() {
        println!(rt; "label {}", row.number)?;
    }
    match table.get(2) {
        Some(row) => println!(rt; "third: {}", row.number),
        None => println!(rt; "third: none"),
    }
}

fn main(rt: HostRuntime) -> io::Result<()> {
    meters(&rt)?;
    lender(&rt)?;
    groups(&rt)?;
    labels(&rt)
}
