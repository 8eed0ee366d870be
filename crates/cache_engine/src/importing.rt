//! `import`: the rows of a CSV file go into a backing table.

ghost use Rattle.std.specs.Prelude.{◌≡◌};
ghost use Rattle.cache_tier.specs.Worlds.{Tries};
ghost use Rattle.cache_tier.specs.TierStates.{Tier as AbstractTier};
ghost use Rattle.cache_engine.specs.Importing.{FindsInserts, Imports};
ghost use Rattle.propagators.specs.Certainty.{KeepsCertain};
ghost use Rattle.stored_tier.specs.Performing.{IsCaused};
ghost use Rattle.stored_tier.specs.Sites.{Serves};
ghost use Rattle.stored_tier.specs.Stored.{IsStoredAs};

use crate::console::reply_to_writes;
use crate::engine::Engine;
use cache_tier::reply::Reply;
use csv_import::read_inserts;
use evaluator::Change;
use outside::Site;
use row_types::{Detail, Refused, Rule};
use std::alloc::Global;
use stored_tier::tier::Tier;
use table_defs::find_table;
use tier_base::{Code, Name, NameError};
use tier_statements::{done, refuse};

/// Inserts the rows of a CSV file into the backing table of a word, as one transaction of the console: all of them, or
/// none. The reply tells how many they are; a file with a header alone is no transaction. The engine stays as it is.
///
/// The refusal is 102 where no backing table has this name, and 121 of a writethrough group's table; then what the file
/// breaks, record by record, as `csv_import::read_inserts` tells it: 101, 105, 106, and 119 past 10,000 records; then
/// what the backing database refuses of the INSERTs: 107 and 108. It is 201 where its call failed: all of them came, or
/// none. (RFC 4180; TimesTen SQL Reference, "INSERT"; the codes and their order are this project's rule.)
pub fn import_rows<P: Site>(
    engine: &Engine,
    alloc: Global,
    site: &mut P,
    word: &[u8],
    bytes: &[u8],
) -> Reply
    ensures serves { Serves engine.now.tier engine.now.tier
        (P.Disk.state site.old)
        (P.Disk.state site.new)
        (λ w w'. Tries (Imports word.now bytes.now) w w' result) }
    ensures certain { KeepsCertain P.Disk.state P.Disk.possible site.old site.new }
    ensures disk { (P.Disk.state site.new).disk_faults ≡ (P.Disk.state site.old).disk_faults }
    ensures cause { IsCaused
        (P.Disk.state site.old)
        (P.Disk.state site.new)
        result }
{
    match inserts_for(&engine.tier, alloc, word, bytes) {
        Err(refused) => refuse(alloc, refused),
        Ok(inserts) => {
            if inserts.is_empty() {
                return done(alloc, 0);
            }
            let end = site.foreign(inserts.as_slice());
            reply_to_writes(alloc, end)
        }
    }
}

// The INSERTs of the file into the table of the word.
fn inserts_for(
    tier: &Tier,
    alloc: Global,
    word: &[u8],
    bytes: &[u8],
) -> Result<Vec<Change>, Refused>
    ensures { (a : AbstractTier) → IsStoredAs tier.now a → FindsInserts a word.now bytes.now result }
{
    let name = match Name::new(alloc, word) {
        Ok(name) => name,
        Err(NameError::Memory) => return Err(Refused::Memory),
        Err(NameError::Bad) => return Err(unknown(Detail::NoType)),
    };
    let Some(table) = find_table(&tier.schema, &name) else {
        return Err(unknown(Detail::Name(name)));
    };
    let Some(def) = tier.schema.get(table.0 as usize) else {
        return Err(unknown(Detail::Name(name)));
    };
    if tier.catalog.is_written_through(table) {
        return Err(Refused::Rule(Rule {
            code: Code::WritethroughTable,
            detail: Detail::Name(name),
        }));
    }
    read_inserts(alloc, table, def, bytes)
}

// 102.
fn unknown(detail: Detail) -> Refused
    ensures { result ≡ Refused.Rule (record { code = Code.UnknownTable; detail = detail }) }
{
    Refused::Rule(Rule {
        code: Code::UnknownTable,
        detail,
    })
}
