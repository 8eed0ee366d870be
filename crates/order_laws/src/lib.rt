//! Laws of the order in which transactions are applied. A law is the contract of a function that does nothing.
#![tactic(auto)]

mod flows;
mod laws;
mod open_writes;
mod standing;

pub use flows::{
    flow_at_once_law, flow_begin_law, flow_come_law, flow_commit_law, flow_define_law,
    flow_drained_law, flow_others_law, flow_round_law, flow_settle_law, flow_skip_law,
};
pub use laws::{apart_law, effect_law, order_law, past_law, sides_law};
pub use open_writes::{open_end_law, open_past_law, open_session_law, open_write_law};
pub use standing::{
    at_once_law, begin_law, come_law, commit_law, define_law, group_law, leave_law, lost_law,
    others_law, round_law,
};
pub use table_state;
pub use table_state::{indexed_rows, row_types, table_defs, tier_base};
