// Tables of rows kept in the order of their keys, over memory that the caller lends.
#![tactic(auto)]

pub mod book_rows;
pub mod group_rows;
pub mod keyed;
pub mod row;
mod search;
mod shift;

pub use keyed::Table;
pub use row::Row;
