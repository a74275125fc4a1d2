// A divided quarter, for people.
use crate::input::{Postings, Row};
use allocation::{Allocated, Share};

// The groups in their order, and the line of their shares: of each group offtake, then feed-in.
// The shares lie apart from their groups, since `allocate` takes them in one slice.
#[derive(Drop)]
pub struct Report {
    pub postings: Postings,
    pub rows: Vec<Row>,
    pub line: Vec<Share>,
    pub allocated: Allocated,
}
