// The rules on names, types, arguments and places, each with its own words in `specs/Rules.antt`.
pub mod calls;
pub mod kinds;
pub mod names;
pub mod parts;

pub use calls::{unless, with_argument};
pub use kinds::{difference_sort, grouped_sort, sum_sort};
