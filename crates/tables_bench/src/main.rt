// Times the keyed table on rows of 72 bytes. With no argument it does nothing, so that a check costs no time.
#![tactic(auto)]

ghost use Rattle.std.specs.Prelude.{◌<◌};
ghost use Rattle.tables_bench.specs.Wide.{wide_rules};
ghost use Rattle.std.proofs.Common.{rules};

use fault::{Code, Fault, TableKind};
use std::time::Instant;
use std::{env, io};
use tables::{Row, Table};

const ROWS: u64 = 1_000_000;

const SHUFFLED: u64 = 100_000;

// Coprime to both numbers of rows, so that its multiples visit every key once, out of order.
const STRIDE: u64 = 7_919;

#[derive(Clone, Copy)]
pub struct Wide {
    code: u64,
    rest: [u64; 8],
}

impl Row for Wide {
    type Key = u64;

    ghost rules = { wide_rules };

    ghost ordered = { Prim.search rules };

    fn key(&self) -> u64 {
        self.code
    }

    fn before(a: &u64, b: &u64) -> bool {
        *a < *b
    }

    fn most() -> usize {
        10_000_000
    }

    fn present(key: &u64) -> Fault {
        Fault::CodePresent(Code(*key))
    }

    fn absent(key: &u64) -> Fault {
        Fault::NotEnrolled(Code(*key))
    }

    fn full(_key: &u64) -> Fault {
        Fault::NoPlace(TableKind::Connections)
    }
}

fn row_with(code: u64) -> Wide {
    Wide {
        code,
        rest: [code; 8],
    }
}

// How many of n rows go in, each key the next multiple of the stride.
fn fill(table: &mut Table<'_, Wide>, n: u64, stride: u64) -> usize
    requires { 0 < n }
{
    (0..n)
        .filter(|i| table.insert(row_with(i.wrapping_mul(stride) % n)).is_ok())
        .count()
}

fn look(table: &Table<'_, Wide>, n: u64) -> u64
    requires { 0 < n }
{
    (0..n)
        .filter_map(|i| table.seek(&(i.wrapping_mul(STRIDE) % n)).ok())
        .filter_map(|place| table.get(place))
        .fold(0u64, |sum, row| sum.wrapping_add(row.rest[7]))
}

fn drain(table: &mut Table<'_, Wide>, n: u64) -> usize {
    (0..n).rev().filter(|i| table.remove(i).is_ok()).count()
}

fn run(rt: &HostRuntime) -> io::Result<()> {
    let mut memory = vec![in rt.alloc(); row_with(0); 1_000_000]?;
    let mut table = Table::new(&mut memory);
    let start = Instant::now(rt)?;
    let filled = fill(&mut table, ROWS, 1);
    let rising = start.elapsed(rt)?.as_micros();
    let start = Instant::now(rt)?;
    let sum = look(&table, ROWS);
    let looked = start.elapsed(rt)?.as_micros();
    let start = Instant::now(rt)?;
    let drained = drain(&mut table, ROWS);
    let out = start.elapsed(rt)?.as_micros();
    let start = Instant::now(rt)?;
    let mixed = fill(&mut table, SHUFFLED, STRIDE);
    let random = start.elapsed(rt)?.as_micros();
    println!(rt; "rising {rising} us, looked {looked} us, out {out} us, random {random} us")?;
    println!(rt; "filled {filled}, sum {sum}, drained {drained}, mixed {mixed}")
}

fn main(rt: HostRuntime) -> io::Result<()> {
    if env::args(&rt)?.count() < 2 {
        return Ok(());
    }
    run(&rt)
}
