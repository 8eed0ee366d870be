//! Names, numbers, codes and limits: the words that every crate of the tier shares.
#![tactic(auto)]

pub mod code;
pub mod label;
pub mod limit;
pub mod list;
pub mod name;
pub mod number;
pub mod reserved;

pub use code::Code;
pub use label::{Label, LabelError};
pub use limit::Limit;
pub use list::Seq;
pub use name::{Name, NameError};
pub use number::{GroupId, Moment, Position, SessionId, TableId, Ticket};
pub use reserved::{is_reserved, reserved_words};
