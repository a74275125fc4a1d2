// What the text of a quarter holds.
ghost use Rattle.std.specs.Prelude.{◌+◌, ◌≤◌, unsigned_abs};
ghost use Rattle.quarter.specs.Bounds.{most_posted};

use allocation::Posted;

// What a posting counts in.
#[derive(Clone, Copy)]
pub enum Net {
    Exchange,
    Measured,
    Losses,
}

// Which way a posting goes: into the area, as feed-in does, or out of it, as offtake does.
// fault's `Direction` is that of a connection, and an exchange with another grid has none: what goes out there is no offtake.
#[derive(Clone, Copy)]
pub enum Way {
    In,
    Out,
}

// So many watt-hours, in a net and a way.
#[derive(Clone, Copy)]
pub struct Posting {
    pub net: Net,
    pub way: Way,
    pub wh: u64,
}

// The nets of all postings, and all their watt-hours together.
#[derive(Clone, Copy)]
pub struct Postings {
    pub nets: Posted,
    pub gross: u64,
    ghost few: { gross ≤ most_posted },
    ghost within: { unsigned_abs nets.exchange + unsigned_abs nets.measured + unsigned_abs nets.losses ≤ gross },
}

// A profiled group. Groups compare by BRP, then supplier, then class.
// The numbers are as wide as they are read, and not as the groups of `rows` have them: a program that reads a text does not depend on the book's rows.
#[derive(Clone, Copy, PartialEq, Eq, PartialOrd, Ord)]
pub struct Group {
    pub brp: u64,
    pub supplier: u64,
    pub class: u64,
}

// A group with its weights in Wh, and the line that gave it. Rows compare by group first, then by line.
#[derive(Clone, Copy, PartialEq, Eq, PartialOrd, Ord)]
pub struct Row {
    pub group: Group,
    pub line: usize,
    pub offtake: u64,
    pub feed_in: u64,
}

// What a line says that is neither blank nor a comment.
#[derive(Clone, Copy)]
pub enum Item {
    Posting(Posting),
    Group(Row),
}

// A whole text, and how many lines it has.
#[derive(Drop)]
pub struct Input {
    pub postings: Postings,
    pub rows: Vec<Row>,
    pub lines: usize,
}
