//! Reading TOML tables key by key, each value by its kind and bounds, with the first fault of the walk.
#![tactic(auto)]

mod bounds;
mod fault;
mod laws;
mod list;
mod numbers;
mod path;
mod reader;
mod shown;
mod table;
mod texts;

pub use bounds::{Bounds, Form, GREATEST};
pub use fault::{KeyFault, PlanError, PlanFault};
pub use laws::{shown_keys_are_apart, unknown_is_least};
pub use list::{CountRange, ListOf, items_of};
pub use numbers::{Byte, Long, Wide, Word, integer_of, two_numbers};
pub use path::Path;
pub use reader::{Given, Reader};
pub use table::{Keys, found, table_of};
pub use texts::{HexBytes, KeyBytes, Truth, or_length, text_of};
