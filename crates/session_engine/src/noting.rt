//! What a commit keeps of what is known of the sessions' writes.

ghost use Rattle.std.specs.Prelude.{◌≡◌, IsTrue, is_some, true};
ghost use Rattle.session_engine.specs.Committing.{are_housed, home_in};
ghost use Rattle.stored_tier.specs.Stored.{AreApplied, IsSound, IsVerified};

use group_store::{Directory, Shown};
use stored_tier::tier::Tier;
use table_state::Op;
use tier_statements::are_small;

/// Whether it is known that sessions can read and write over the stored rows, and a store has the table of each of
/// these operations.
pub(crate) fn is_verified_for(tier: &Tier, ops: &[Op]) -> bool
    ensures verified { IsTrue result → tier.now.verified ≡ true }
    ensures housed { IsTrue result → are_housed tier.now.directory ops.now ≡ true }
{
    tier.verified && are_housed(&tier.directory, ops)
}

/// Notes that sessions can read and write over the stored rows, where it is known that these stand under their keys
/// and that operations apply. How many rows there are is looked at. It takes no memory.
pub(crate) fn note_verified(tier: &mut Tier, known: bool)
    requires sound { IsSound tier.old }
    requires known { IsTrue known → AreApplied tier.old }
    ensures same { tier.new ≡ record tier.old { verified = tier.new.verified } }
    ensures sound { IsSound tier.new }
{
    if known {
        tier.verified = is_small(tier);
    }
}

// Whether the tables are small, where all else is known.
fn is_small(tier: &Tier) -> bool
    requires sound { IsSound tier.now }
    requires known { AreApplied tier.now }
    ensures { IsTrue result → IsVerified tier.now }
{
    let shown = Shown::new(&tier.schema, tier.stores.as_slice(), &tier.directory);
    are_small(&shown)
}

// Whether a store has the table of each of these operations.
fn are_housed(directory: &Directory, ops: &[Op]) -> bool
    ensures { result ≡ are_housed directory.now ops.now }
{
    ops.iter().all(|op| is_housed(directory, op))
}

fn is_housed(directory: &Directory, op: &Op) -> bool
    ensures { result ≡ is_some (home_in directory.now op.now) }
{
    directory.home(op.table()).is_some()
}
