// Why an entry does not go in: the one fault type of the whole product.
#![tactic(auto)]

pub mod cause;
mod display;
pub mod notice;
mod number;

pub use cause::{
    BytePlace, Code, Direction, Fault, Length, Limit, Period, Position, Quarter, Question,
    Register, TableKind,
};
pub use notice::{Layer, Notice};
