// One line of text.
ghost use Rattle.std.specs.Prelude.{◌≡◌, false, MatchResult};
ghost use Rattle.std.specs.Range.{range_inclusive_start, range_inclusive_end, range_inclusive_exhausted};
ghost use Rattle.allocation.specs.Scale.{whole, most_standing};
ghost use Rattle.quarter.specs.Words.{texts, whole_at, number_at, kind_of, posting_of, profiled_at, named_group, group_of, item_of, says};
ghost use Rattle.quarter.specs.Meaning.{said};
ghost use Rattle.quarter.specs.Reports.{Answers};

use crate::input::{Group, Item, Net, Posting, Row, Way};
use crate::refusal::{Reason, Stop};
use allocation::{Fraction, StandingSum, weight};
use std::alloc::Global;
use std::ops::RangeInclusive;

// The largest number of a BRP or a supplier.
const LARGEST_PARTY: u64 = 65_535;
// The last profiled class.
const LAST_CLASS: u64 = 16;
// The largest posting, in Wh.
const MOST_POSTING: u64 = 2_000_000_000;
// The largest weight that a fraction and a standing sum can give, in Wh.
const MOST_WEIGHT: u64 = 100_000_000_000;

// The whole number that the word at a place of the line writes.
// A word and its place stay two parameters here and below: a slice pattern names each word where its place is known, and a struct of both would be made there again for each call.
fn whole_number(text: &str, place: u8) -> Result<u64, Reason>
    ensures { result ≡ whole_at place text.now }
{
    text.parse::<u64>().map_err(|_| Reason::NotANumber(place))
}

// The whole number that the word at a place writes, within a range.
#[tactic(auto, unfolding(crate::specs::Words::number_at))]
fn number(text: &str, place: u8, range: RangeInclusive<u64>) -> Result<u64, Reason>
    requires { range_inclusive_exhausted range ≡ false }
    ensures { result ≡ number_at place (range_inclusive_start range) (range_inclusive_end range) text.now }
{
    let n = whole_number(text, place)?;
    if range.contains(&n) {
        Ok(n)
    } else {
        Err(Reason::OutOfRange(place))
    }
}

// The fraction that the word at a place writes; its type knows the range.
#[tactic(auto, unfolding(crate::specs::Words::number_at))]
fn fraction(text: &str, place: u8) -> Result<Fraction, Reason>
    ensures { MatchResult result (λ f. number_at place 0 whole text.now ≡ Ok f.parts) (λ e. number_at place 0 whole text.now ≡ Err e) }
{
    let parts = whole_number(text, place)?;
    u32::try_from(parts)
        .ok()
        .and_then(Fraction::new)
        .ok_or(Reason::OutOfRange(place))
}

// The standing sum that the word at a place writes, in kWh; its type knows the range.
#[tactic(auto, unfolding(crate::specs::Words::number_at))]
fn standing_sum(text: &str, place: u8) -> Result<StandingSum, Reason>
    ensures { MatchResult result (λ s. number_at place 0 most_standing text.now ≡ Ok s.kwh) (λ e. number_at place 0 most_standing text.now ≡ Err e) }
{
    StandingSum::new(whole_number(text, place)?).map_err(|_| Reason::OutOfRange(place))
}

// What a fraction gives a standing sum.
#[tactic(auto, unfolding(crate::specs::Words::profiled_at))]
fn profiled(parts: &str, place: u8, kwh: &str, sum_place: u8) -> Result<u64, Reason>
    ensures { result ≡ profiled_at place parts.now sum_place kwh.now }
{
    let fraction = fraction(parts, place)?;
    let sum = standing_sum(kwh, sum_place)?;
    Ok(weight(fraction, sum))
}

// What is posted, and which way.
#[tactic(auto, unfolding(crate::specs::Words::kind_of))]
fn kind(net: &str, way: &str) -> Result<(Net, Way), Reason>
    ensures { result ≡ kind_of net.now way.now }
{
    match (net, way) {
        ("exchange", "in") => Ok((Net::Exchange, Way::In)),
        ("exchange", "out") => Ok((Net::Exchange, Way::Out)),
        ("measured", "offtake") => Ok((Net::Measured, Way::Out)),
        ("measured", "feed-in") => Ok((Net::Measured, Way::In)),
        ("loss", "offtake") => Ok((Net::Losses, Way::Out)),
        ("loss", "feed-in") => Ok((Net::Losses, Way::In)),
        _ => Err(Reason::UnknownWord),
    }
}

// A line of three words: what is posted, which way, and its volume.
#[tactic(auto, unfolding(crate::specs::Words::posting_of))]
fn posting(words: &[&str]) -> Result<Posting, Reason>
    ensures { result ≡ posting_of (texts words.now) }
{
    let [net, way, wh] = words else {
        return Err(Reason::WrongForm);
    };
    let (net, way) = kind(net, way)?;
    let wh = number(wh, 3, 0..=MOST_POSTING)?;
    Ok(Posting { net, way, wh })
}

// The group that three words name.
#[tactic(auto, unfolding(crate::specs::Words::named_group))]
fn named(brp: &str, supplier: &str, class: &str) -> Result<Group, Reason>
    ensures { result ≡ named_group brp.now supplier.now class.now }
{
    Ok(Group {
        brp: number(brp, 2, 1..=LARGEST_PARTY)?,
        supplier: number(supplier, 3, 1..=LARGEST_PARTY)?,
        class: number(class, 4, 1..=LAST_CLASS)?,
    })
}

// A group with its weights, or with the fractions and the standing sums that give them.
#[tactic(auto, unfolding(crate::specs::Words::group_of))]
fn group(line: usize, words: &[&str]) -> Result<Row, Reason>
    ensures { result ≡ group_of line (texts words.now) }
{
    match words {
        [_, brp, supplier, class, form, offtake, feed_in] if *form == "weights" => Ok(Row {
            group: named(brp, supplier, class)?,
            line,
            offtake: number(offtake, 6, 0..=MOST_WEIGHT)?,
            feed_in: number(feed_in, 7, 0..=MOST_WEIGHT)?,
        }),
        [
            _,
            brp,
            supplier,
            class,
            form,
            offtake,
            feed_in,
            sums,
            offtake_sum,
            feed_in_sum,
        ] if *form == "fractions" && *sums == "sums" => Ok(Row {
            group: named(brp, supplier, class)?,
            line,
            offtake: profiled(offtake, 6, offtake_sum, 9)?,
            feed_in: profiled(feed_in, 7, feed_in_sum, 10)?,
        }),
        _ => Err(Reason::WrongForm),
    }
}

// What a line of words says, by its first word.
#[tactic(auto, unfolding(crate::specs::Words::item_of))]
fn item(line: usize, first: &str, words: &[&str]) -> Result<Item, Reason>
    ensures { result ≡ item_of line first.now (texts words.now) }
{
    match first {
        "group" => Ok(Item::Group(group(line, words)?)),
        "exchange" | "measured" | "loss" => Ok(Item::Posting(posting(words)?)),
        _ => Err(Reason::UnknownWord),
    }
}

// What a line says, unless it has no words or is a comment.
#[tactic(auto, unfolding(crate::specs::Words::says))]
fn said(line: usize, words: &[&str]) -> Result<Option<Item>, Reason>
    ensures { result ≡ says line (texts words.now) }
{
    match words {
        [] => Ok(None),
        [first, ..] if first.starts_with('#') => Ok(None),
        [first, ..] => Ok(Some(item(line, first, words)?)),
    }
}

// What a line says.
pub(crate) fn parse(heap: Global, line: usize, text: &str) -> Result<Option<Item>, Stop>
    ensures { Answers (said line text.now) result (λ item. item) }
{
    let words: Vec<&str> = text.split_whitespace().collect(heap)?;
    Ok(said(line, words.as_slice()).map_err(|reason| reason.at(line))?)
}
