//! The tier as it is stored: its parts, what it stands for, its sessions, its rounds.
#![tactic(auto)]

pub mod clock;
pub mod drain;
pub mod filling;
pub mod gathering;
pub mod moments;
pub mod naming;
mod new_slot;
pub mod refreshing;
pub mod session;
pub mod tier;
pub mod verifying;
