// What the book promises: the refusal table, the model of its entries, histories of them, and the laws that every history keeps.
// No entry is here: the calls rest on these definitions and theorems.
#![tactic(auto)]

pub mod laws;
pub mod posting;
pub mod worked;

pub use posting::PostingKind;
