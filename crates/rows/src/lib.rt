// The rows of the book, and the loops over its group rows.
#![tactic(auto)]

pub mod amounts;
pub mod clear;
pub mod code;
pub mod connection;
mod direction;
pub mod divide;
pub mod group;
pub mod held;
pub mod meter;
pub mod settle;
pub mod weigh;

pub use amounts::{row_amounts, settle_rows};
pub use clear::clear_quarters;
pub use code::bad_code;
pub use connection::{ConnectionRow, Digits};
pub use divide::divide_rows;
pub use group::{Group, GroupRow, Party};
pub use held::weights_hold;
pub use meter::{NoMeter, advance};
pub use settle::{profiled_real, volumes_within};
pub use weigh::{Weighed, Weighing};
