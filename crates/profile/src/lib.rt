// What a profile is asked, and who may answer: for a class, a direction and a quarter the fraction of a standard year volume.
#![tactic(auto)]

pub mod fallback;
pub mod lent;
pub mod nothing;
mod place;
pub mod published;
pub mod quarters;
pub mod reference;
pub mod source;
pub mod weigh;

pub use fallback::Fallback;
pub use nothing::NoProfile;
pub use place::LINES;
pub use published::PublishedTable;
pub use quarters::Quarters;
pub use reference::ReferenceGroup;
pub use source::ProfileSource;
pub use weigh::{weight_by, wide_weight_by};
