// A quarter's text, read, divided and reported.
ghost use Rattle.std.specs.Prelude.{◌≡◌, ◌+◌, ◌^◌, ◌<◌, IfOk, MatchResult};
ghost use Rattle.quarter.specs.Meaning.{at_line, described, with_item, with_line};
ghost use Rattle.quarter.specs.Reports.{read_so_far, Answers, Booked, Breaks, Divided, Holds, Reports, Stops};
ghost use Rattle.quarter.specs.Rows.{before, Rising, line_of};

use crate::input::{Input, Item, Postings, Row};
use crate::parse::parse;
use crate::refusal::{Reason, Refusal, Stop};
use crate::report::Report;
use allocation::{Share, allocate};
use fault::{Direction, Quarter};
use std::alloc::{AllocError, Global};

// Takes in what the last line read says.
fn note(input: &mut Input, item: Option<Item>) -> Result<(), Stop>
    ensures answer { Answers (at_line input.old.lines (with_item (read_so_far input.old) item)) result (λ _. read_so_far input.new) }
    ensures count { input.new.lines ≡ input.old.lines }
{
    match item {
        None => Ok(()),
        Some(Item::Posting(posting)) => {
            input.postings = input
                .postings
                .with(posting)
                .map_err(|fault| Reason::Quarter(fault).at(input.lines))?;
            Ok(())
        }
        Some(Item::Group(row)) => {
            input.rows.push(row)?;
            Ok(())
        }
    }
}

// Takes in one line more.
fn take_line(heap: Global, input: &mut Input, line: &str) -> Result<(), Stop>
    requires { input.old.lines + 1 < 2 ^ 64 }
    ensures answer { Answers (with_line (input.old.lines + 1) (read_so_far input.old) line.now) result (λ _. read_so_far input.new) }
    ensures count { input.new.lines ≡ input.old.lines + 1 }
{
    input.lines += 1;
    let item = parse(heap, input.lines, line)?;
    note(input, item)
}

// The whole text.
fn read(heap: Global, text: &str) -> Result<Input, Stop>
    ensures { MatchResult result (Holds text.now) (Stops (described text.now)) }
{
    let mut input = Input {
        postings: Postings::none(),
        rows: Vec::new(heap),
        lines: 0,
    };
    for line in text.lines() {
        take_line(heap, &mut input, line)?;
    }
    Ok(input)
}

// Whether one row's group comes before another's: the derived order, in a function whose contract says what it is. Tried in place, an edit of it failed in its proof and not here.
fn comes_before(a: &Row, b: &Row) -> bool
    ensures { result ≡ before a.now b.now }
{
    a.group < b.group
}

// Sorted rows rise, unless one group is there twice.
fn check_rising(rows: &[Row]) -> Result<(), Refusal>
    ensures { MatchResult result (λ _. Rising rows.now) (λ e. Breaks rows.now e) }
{
    match rows.array_windows::<2>().find(|[a, b]| !comes_before(a, b)) {
        Some([_, later]) => Err(Reason::GroupTwice.at(later.line)),
        None => Ok(()),
    }
}

// The line of the rows' weights.
fn line_of(heap: Global, rows: &[Row]) -> Result<Vec<Share>, AllocError>
    ensures { IfOk result (λ v. v.items ≡ line_of rows.now) }
{
    let mut line = Vec::new(heap);
    for row in rows {
        line.push(Share::new(Direction::Offtake, row.offtake))?;
        line.push(Share::new(Direction::FeedIn, row.feed_in))?;
    }
    Ok(line)
}

// Divides what was read.
fn report_of(heap: Global, input: Input) -> Result<Report, Stop>
    ensures { Divided input.lines (read_so_far input) result }
{
    let Input {
        postings,
        mut rows,
        lines,
    } = input;
    rows.sort_unstable();
    check_rising(rows.as_slice())?;
    let mut line = line_of(heap, rows.as_slice())?;
    let allocated = allocate(line.as_mut_slice(), postings.nets(), Quarter(0)).map_err(
        |fault| Reason::Quarter(fault).at(lines),
    )?;
    Ok(Report {
        postings,
        rows,
        line,
        allocated,
    })
}

// Books the quarter that a text describes.
pub fn book(heap: Global, text: &str) -> Result<Report, Stop>
    ensures booked { IfOk result Booked }
    ensures told { Reports text.now result }
{
    report_of(heap, read(heap, text)?)
}
