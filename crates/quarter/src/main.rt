// One quarter-hour of a grid area, from standard input: what the profile gave each group, the residual, and what each group got.
#![tactic(auto)]

ghost use Rattle.quarter.specs.Bytes.{ReportsBytes};

mod book;
mod input;
mod parse;
mod postings;
mod refusal;
mod report;
mod show;
mod text;

use book::book;
use refusal::Stop;
use report::Report;
use std::alloc::Global;
use std::io::{self, Read};
use std::process::ExitCode;
use text::text_of;

// Books the quarter that bytes describe, if they are a text.
fn book_bytes(heap: Global, bytes: &[u8]) -> Result<Report, Stop>
    ensures { ReportsBytes bytes.now result }
{
    book(heap, text_of(bytes)?)
}

fn main(rt: HostRuntime) -> io::Result<ExitCode> {
    let heap = rt.alloc();
    let mut bytes = Vec::new(heap);
    rt.stdin().read_to_end(&mut bytes)?;
    match book_bytes(heap, bytes.as_slice()) {
        Ok(report) => {
            print!(rt; "{report}")?;
            Ok(ExitCode::SUCCESS)
        }
        Err(stop) => {
            eprintln!(rt; "quarter: {stop}")?;
            Ok(ExitCode::FAILURE)
        }
    }
}
