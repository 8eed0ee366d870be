//! A schema that the tier learns.

ghost use Rattle.std.specs.Prelude.{IfOk, IsTrue};
ghost use Rattle.cache_engine.specs.Growing.{Learns, MayLearn};
ghost use Rattle.tier_journal.specs.Ways.{HasBecome};
ghost use Rattle.stored_tier.specs.Stored.{IsSound};

use group_store::Directory;
use open_sessions::laws::grown_law;
use std::alloc::{AllocError, Global};
use stored_tier::naming::{has_no_home, name_tables};
use stored_tier::tier::Tier;
use table_defs::{BackingSchema, TableDef};

/// What sessions find by name over a schema, and where its tables are kept, where it begins with the known one and
/// none of the tables that are new is in a store; else, and where memory is wanting, the error.
pub(crate) fn name_grown(
    tier: &Tier,
    alloc: Global,
    schema: &BackingSchema,
) -> Result<(BackingSchema, Directory), AllocError>
    ensures { IfOk result (λ names. MayLearn tier.now schema.now names.0 names.1) }
{
    if !begins_with(tier.schema.as_slice(), schema.as_slice()) {
        return Err(AllocError);
    }
    let (visible, directory) = name_tables(
        alloc,
        &tier.catalog,
        tier.stores.as_slice(),
        schema.as_slice(),
    )?;
    match (
        u32::try_from(tier.schema.len()),
        u32::try_from(schema.len()),
    ) {
        (Ok(first), Ok(end)) => {
            if has_no_home(&directory, first, end) {
                return Ok((visible, directory));
            }
            Err(AllocError)
        }
        _ => Err(AllocError),
    }
}

/// The tier knows the schema. It takes no memory.
pub(crate) fn learn(
    tier: &mut Tier,
    schema: BackingSchema,
    visible: BackingSchema,
    directory: Directory,
)
    requires sound { IsSound tier.old }
    requires grown { MayLearn tier.old schema visible directory }
    ensures learns { Learns tier.old tier.new schema }
    ensures sound { IsSound tier.new }
{
    grown_law();
    tier.schema = schema;
    tier.visible = visible;
    tier.directory = directory;
    tier.stale = false;
    tier.verified = false;
}

// Whether the definitions begin with these.
fn begins_with(front: &[TableDef], whole: &[TableDef]) -> bool
    ensures { IsTrue result → HasBecome front.now whole.now }
{
    let mut these = front;
    let mut those = whole;
    while let (Some((a, after_a)), Some((b, after_b))) = (
        these.split_first(),
        those.split_first(),
    ) {
        if !a.same(b) {
            return false;
        }
        these = after_a;
        those = after_b;
    }
    these.is_empty()
}
