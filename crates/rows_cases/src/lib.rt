//! Joins against a slow twin, and the calls that no line reaches. This crate has only tests.
#![tactic(auto)]

#[cfg(test)]
mod build;
#[cfg(test)]
mod calls;
#[cfg(test)]
mod joins;
