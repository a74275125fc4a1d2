// What the book knows of a connection.
use crate::group::Party;

// How many digits a meter shows.
#[derive(Clone, Copy)]
pub enum Digits {
    Five,
    Six,
}

// A connection and its meter. Volumes and stands are by register; the mark is the quarter at which it was last read.
#[derive(Clone, Copy)]
pub struct ConnectionRow {
    pub code: u64,
    pub brp: Party,
    pub supplier: Party,
    pub class: u8,
    pub digits: Digits,
    pub factor: u8,
    // standard year volumes, in kWh
    pub volumes: [u32; 4],
    pub stands: [u32; 4],
    pub mark: u32,
}
