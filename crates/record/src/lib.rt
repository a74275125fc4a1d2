// Records: one byte of kind and a body whose length the kind fixes, as values and as bytes.
#![tactic(auto)]

mod apart;
pub mod entry;
mod entry_read;
mod entry_write;
mod field;
pub mod kind;
mod number;
pub mod page;
mod page_read;
mod page_write;
pub mod place;
mod put;

pub use entry::{Enrolment, Entry};
pub use kind::{EntryKind, NoKind, PageKind};
pub use page::{GroupVolumes, PageRecord, Part};
pub use place::{group_place, page_length, period_place, register_place};
