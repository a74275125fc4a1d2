// Postings added up: each counts in one net, and all in the watt-hours together.
ghost use Rattle.std.specs.Prelude.{◌≡◌, ◌+◌, ◌≤◌, pos, unsigned_abs};
ghost use Rattle.allocation.specs.Refusals.{Decided};
ghost use Rattle.quarter.specs.Postings.{signed, nets, with_posting, postings_refusal, Posts};

use crate::input::{Net, Posting, Postings, Way};
use allocation::Posted;
use fault::{Fault, Limit};

const MOST_POSTED: u64 = 4_000_000_000;

// The volume of a posting; into the area is positive.
fn volume(posting: Posting) -> i64
    requires { posting.wh ≤ MOST_POSTED }
    ensures { result ≡ signed posting.way posting.wh }
{
    match posting.way {
        Way::In => posting.wh as i64,
        Way::Out => -(posting.wh as i64),
    }
}

// The nets with one posting more.
fn counted(mut nets: Posted, posting: Posting) -> Posted
    requires { unsigned_abs nets.exchange + unsigned_abs nets.measured + unsigned_abs nets.losses + posting.wh ≤ MOST_POSTED }
    ensures { result ≡ with_posting nets posting }
{
    let volume = volume(posting);
    match posting.net {
        Net::Exchange => nets.exchange += volume,
        Net::Measured => nets.measured += volume,
        Net::Losses => nets.losses += volume,
    }
    nets
}

impl Postings {
    pub fn none() -> Postings
        ensures { (result.nets ≡ record { exchange = pos 0; measured = pos 0; losses = pos 0 }) × (result.gross ≡ 0) }
    {
        let nets = Posted {
            exchange: 0,
            measured: 0,
            losses: 0,
        };
        Postings { nets, gross: 0 }
    }

    // One posting more, while all together stay within their limit.
    pub fn with(self, posting: Posting) -> Result<Postings, Fault>
        ensures { Decided (postings_refusal (self.gross + posting.wh)) result (λ n. Posts self posting n) }
    {
        if posting.wh > MOST_POSTED - self.gross {
            return Err(Fault::LimitPassed(Limit::Postings));
        }
        Ok(Postings {
            nets: counted(self.nets, posting),
            gross: self.gross + posting.wh,
        })
    }

    // X, M and L.
    pub fn nets(self) -> Posted
        ensures { result ≡ nets self }
    {
        self.nets
    }
}
