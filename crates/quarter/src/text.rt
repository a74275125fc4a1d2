// The text that bytes are.
ghost use Rattle.std.specs.Prelude.{◌≡◌, MatchResult};
ghost use Rattle.std.specs.Str.{IsUtf8};
ghost use Rattle.quarter.specs.Bytes.{line_ends, line_of_no_text};
ghost use Rattle.quarter.specs.declared.refusal.Reason.TheVariants.{NotText};

use crate::refusal::{Reason, Refusal};
use std::str;

// How many lines end in the bytes.
fn line_ends(bytes: &[u8]) -> usize
    ensures { result ≡ line_ends bytes.now }
{
    bytes.iter().filter(|b| **b == b'\n').count()
}

// The text, or the line with the first bytes that are none.
pub(crate) fn text_of(bytes: &[u8]) -> Result<&str, Refusal>
    ensures { MatchResult result (λ text. (text.now ≡ bytes.now) × IsUtf8 bytes.now) (λ e. ¬ (IsUtf8 bytes.now) × (e ≡ record { line = line_of_no_text bytes.now; reason = NotText })) }
{
    str::from_utf8(bytes).map_err(|e| {
        let whole = &bytes[..e.valid_up_to()];
        Reason::NotText.at(line_ends(whole) + 1)
    })
}
