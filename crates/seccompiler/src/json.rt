//! The JSON front end: filters written as JSON text.
//!
//! A text is an object that gives each filter a name, with its two actions and its entries;
//! docs/JSON.md has the format. [`filters_of`] reads a text as JSON filters, and [`JsonCompiler`] makes
//! them the filters of an architecture; [`text_of`] gets the text of a reader. [`repeats_key`] says
//! whether a text repeats a name, and [`read_filters`] turns the value of a text into JSON filters. Whoever
//! looks at the values inside a policy has [`read_action`], [`read_arg_len`] and [`read_operator`].

mod compiler;
mod error;
mod filter_map;
mod lent;
mod members;
mod parts;
mod policy;
mod repeats;
mod texts;
mod types;

pub(crate) use compiler::listed_policies;
pub use compiler::{JsonCompiler, policies_in};
pub use error::JsonFrontendError;
pub use filter_map::read_filters;
pub use parts::{read_action, read_arg_len, read_operator};
pub use repeats::repeats_key;
pub(crate) use texts::value_from;
pub use texts::{filters_of, text_of, value_of};
pub use types::{JsonCondition, JsonFilter, JsonFilterMap, JsonRule};
