// Asks profile sources of every kind, one of them made here, and prints what they answer.
#![tactic(auto)]

ghost use Rattle.profile.specs.Meanings.{meant, Answers};
ghost use Rattle.fault.specs.declared.cause.Fault.TheVariants.{FractionAbsent};

mod flat;

use allocation::{Fraction, StandingSum};
use anyhow::Context;
use fault::{Fault, Quarter, Question};
use flat::Flat;
use profile::reference::NOT_METERED;
use profile::{
    Fallback, LINES, NoProfile, ProfileSource, PublishedTable, Quarters, ReferenceGroup, weight_by,
};

// The parts of the fraction that the source means.
fn parts_by<S: ProfileSource>(source: &S, question: Question) -> Result<u32, Fault>
    ensures { Answers (λ parts. parts) (meant (S.ProfileSource.means source.now) question) (FractionAbsent question) result }
{
    Ok(source.fraction(question)?.parts())
}

fn question(class: u8, direction: u8, quarter: u32) -> Question {
    Question {
        class,
        direction,
        quarter: Quarter(quarter),
    }
}

fn ask<S: ProfileSource>(
    rt: &HostRuntime,
    name: &str,
    source: &S,
    questions: &[Question],
) -> anyhow::Result<()> {
    for question in questions {
        match parts_by(source, *question) {
            Ok(parts) => println!(rt; "{name}: {parts} for {question}")?,
            Err(fault) => println!(rt; "{name}: {fault}")?,
        }
    }
    Ok(())
}

// Why there is no month of so many quarters.
const NO_MONTH: &str = "a month has at most 2980 quarters";
// Why there is no fraction of so many parts.
const NO_FRACTION: &str = "a fraction has at most 1000000 parts";

// Four quarters: both directions of class 1, offtake of class 2, and feed-in of class 2, which breaks off.
const NUMBERS: [u32; 14] = [
    10,
    20,
    30,
    40,
    1_000_000,
    1_000_001,
    0,
    4_294_967_295,
    7,
    8,
    9,
    11,
    500_000,
    250_000,
];

fn published(rt: &HostRuntime) -> anyhow::Result<()> {
    let table = PublishedTable::new(Quarters::new(4).context(NO_MONTH)?, &NUMBERS);
    let questions = [
        question(1, 0, 0),
        question(1, 0, 3),
        question(1, 0, 4),
        question(1, 1, 0),
        question(1, 1, 1),
        question(1, 1, 2),
        question(1, 1, 3),
        question(1, 2, 0),
        question(2, 0, 0),
        question(2, 1, 1),
        question(2, 1, 2),
        question(0, 0, 0),
        question(17, 0, 0),
        question(16, 1, 3),
        question(255, 255, 4_294_967_295),
    ];
    ask(rt, "published", &table, &questions)
}

// One quarter, and all lines, from offtake of class 1 to feed-in of class 16.
fn full(rt: &HostRuntime) -> anyhow::Result<()> {
    let mut numbers = [0; LINES];
    numbers[0] = 101;
    numbers[16] = 117;
    numbers[30] = 131;
    numbers[31] = 132;
    let table = PublishedTable::new(Quarters::new(1).context(NO_MONTH)?, &numbers);
    let questions = [
        question(1, 0, 0),
        question(9, 0, 0),
        question(16, 0, 0),
        question(16, 1, 0),
        question(17, 0, 0),
    ];
    ask(rt, "full", &table, &questions)
}

fn reference(rt: &HostRuntime) -> anyhow::Result<()> {
    let mut sums = [0; LINES];
    sums[0] = 3;
    sums[1] = 10_000_000_000;
    sums[2] = 10_000_000_001;
    sums[4] = 1;
    sums[5] = 1;
    let metered = [10, 31, 4_294_967_294, NOT_METERED, 5, 5, 5, 0, 0, 10, 11];
    let group = ReferenceGroup::new(Quarters::new(2).context(NO_MONTH)?, &sums, &metered);
    let questions = [
        question(1, 0, 0),
        question(1, 0, 1),
        question(1, 1, 0),
        question(1, 1, 1),
        question(2, 0, 0),
        question(2, 1, 0),
        question(2, 1, 1),
        question(3, 0, 0),
        question(3, 0, 1),
        question(3, 1, 0),
        question(3, 1, 1),
        question(1, 0, 2),
        question(4, 0, 0),
    ];
    ask(rt, "reference", &group, &questions)
}

// A table with holes over a flat profile of three quarters, then the same the other way round, over a source with nothing.
fn layers(rt: &HostRuntime) -> anyhow::Result<()> {
    let table = PublishedTable::new(Quarters::new(4).context(NO_MONTH)?, &NUMBERS);
    let flat = Flat {
        quarters: Quarters::new(3).context(NO_MONTH)?,
        fraction: Fraction::new(77).context(NO_FRACTION)?,
    };
    let questions = [
        question(1, 1, 0),
        question(1, 1, 1),
        question(1, 1, 2),
        question(1, 0, 3),
        question(16, 1, 2),
        question(0, 0, 0),
        question(1, 2, 0),
    ];
    ask(rt, "flat", &flat, &questions)?;
    ask(
        rt,
        "table, then flat",
        &Fallback::new(table, flat),
        &questions,
    )?;
    ask(
        rt,
        "flat, then table",
        &Fallback::new(flat, table),
        &questions,
    )?;
    let nothing = NoProfile::new(Quarters::new(4).context(NO_MONTH)?);
    ask(
        rt,
        "nothing, then table, then nothing",
        &Fallback::new(&nothing, Fallback::new(&table, &nothing)),
        &questions,
    )
}

// A quarter that the source has, and one past its end.
fn weigh<S: ProfileSource>(rt: &HostRuntime, source: &S, sum: StandingSum) -> anyhow::Result<()> {
    for quarter in 0..2 {
        match weight_by(source, question(1, 0, quarter), sum) {
            Ok(weight) => println!(rt; "sum {} weighs {weight} in quarter {quarter}", sum.kwh())?,
            Err(fault) => println!(rt; "sum {}: {fault}", sum.kwh())?,
        }
    }
    Ok(())
}

// A group of one kWh less than half the unit weighs nothing at fraction 1, and one of half the unit weighs 1.
fn weights(rt: &HostRuntime) -> anyhow::Result<()> {
    let source = Flat {
        quarters: Quarters::new(1).context(NO_MONTH)?,
        fraction: Fraction::new(1).context(NO_FRACTION)?,
    };
    for kwh in [0, 49_999, 50_000, 149_999, 150_000, 10_000_000_000] {
        if let Ok(sum) = StandingSum::new(kwh) {
            weigh(rt, &source, sum)?;
        }
    }
    Ok(())
}

fn main(rt: HostRuntime) -> anyhow::Result<()> {
    published(&rt)?;
    full(&rt)?;
    reference(&rt)?;
    layers(&rt)?;
    weights(&rt)
}
