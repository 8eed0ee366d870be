//! A law of the definitions, on the contract of a function that does nothing.

ghost use Rattle.tier_journal.specs.Beginning.{WaysMayBegin};

use outside::Disk;

/// A way of the journal may begin in each world over whose disk it is kept: the next calls then tell what a crash at
/// each of their moments leaves, since each of them promises that the journal is kept in the world behind it.
pub fn way_law<D: Disk>()
    ensures begins { WaysMayBegin D.state D.possible }
{}
