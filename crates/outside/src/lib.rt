//! The world outside the tier: where requests come from and replies go, the clock, the journal's disk and the backing
//! database, as traits; and small ones in memory that tell everything.
#![tactic(auto)]

pub mod changes;
pub mod clock;
pub mod disk;
pub mod fault;
pub mod laws;
pub mod memory_sink;
pub mod memory_source;
pub mod script_clock;
pub mod sink;
pub mod site;
pub mod source;
pub mod write;

pub use changes::{Changes, Touched};
pub use clock::Clock;
pub use disk::{Disk, Slot};
pub use fault::{BankError, DiskFault, Failed};
pub use laws::changes_law;
pub use memory_sink::MemorySink;
pub use memory_source::MemorySource;
pub use script_clock::ScriptClock;
pub use sink::Sink;
pub use site::{Applied, Done, Instance, Reached, Receipt, Site, Snapshot};
pub use source::Source;
pub use write::put_all;
