//! Tables in the simplified GEO-EAS form: a title, the number of variables, their names, and rows of
//! numbers. Training images and points with a category are read from such tables.
#![tactic(auto)]

mod fault;
mod held;
mod image;
mod number;
mod progress;
mod read;
mod reader;
mod row;
mod want;

pub use fault::{TableError, TableFault};
pub use image::image_from_table;
pub use read::read_table;
pub use reader::TableReader;
pub use row::{Row, Rows, Table};
pub use want::Want;

#[cfg(test)]
mod reader_tests;
#[cfg(test)]
mod tests;
