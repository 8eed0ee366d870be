//! What a new slot of the journal begins with. Each call fails for want of memory alone; what has no bytes in a journal
//! is taken for that, too.

ghost use Rattle.std.specs.Prelude.{◌≡◌, ◌∷◌, ◌<◌, [], List, IfOk, Some, length, slice_get};
ghost use Rattle.table_defs.specs.declared.definition.TableDef.{TableDef as OneTable};
ghost use Rattle.journal_entries.specs.Bodies.{beginning};
ghost use Rattle.cache_tier.specs.Groups.{Group};
ghost use Rattle.cache_tier.specs.Journals.{Marks};
ghost use Rattle.cache_tier.specs.Rotations.{definition_entry};
ghost use Rattle.group_catalog.specs.Catalogs.{groups_in};
ghost use Rattle.group_catalog.specs.Kept.{group_seen};
ghost use Rattle.tier_journal.specs.Batches.{Holds};
ghost use Rattle.stored_tier.specs.NewSlots.{AddsAll, begun_entries, definition_entries, flag_entries, state_entries};

use crate::refreshing::is_read_only;
use group_catalog::{Catalog, KeptGroup};
use std::alloc::{AllocError, Global};
use tier_base::Ticket;
use tier_journal::Batch;

// The next ticket, and of the groups the definitions, the STATEs of READONLY ones, and the flags that are set.
pub(crate) fn slot_batch(
    alloc: Global,
    catalog: &mut Catalog,
    next: u64,
) -> Result<Batch, AllocError>
    ensures begins { IfOk result (λ batch. batch.begins ≡ beginning) }
    ensures holds { IfOk result (λ batch. (schema : List OneTable)
        → Holds 2 schema batch (begun_entries next (groups_in catalog.old))) }
    ensures same { catalog.new ≡ catalog.old }
{
    let marked = marked_batch(alloc, next)?;
    let defined = with_definitions(alloc, marked, catalog)?;
    let turned = with_states(alloc, defined, catalog)?;
    let flagged = with_flags(alloc, turned, catalog)?;
    Ok(flagged)
}

// The next ticket, which is at most 2^63.
fn marked_batch(alloc: Global, next: u64) -> Result<Batch, AllocError>
    ensures begins { IfOk result (λ batch. batch.begins ≡ beginning) }
    ensures holds { IfOk result (λ batch. (schema : List OneTable) → Holds 2 schema batch (Marks next ∷ [])) }
{
    if next > 1 << 63 {
        return Err(AllocError);
    }
    let marked = Batch::of_a_slot(alloc).with_mark(Ticket(next))?;
    Ok(marked)
}

// With the definitions of the groups behind the others.
fn with_definitions(alloc: Global, batch: Batch, catalog: &mut Catalog) -> Result<Batch, AllocError>
    ensures adds { IfOk result (AddsAll (definition_entries (groups_in catalog.old)) batch) }
    ensures same { catalog.new ≡ catalog.old }
{
    let mut batch = batch;
    for place in 0..catalog.len() {
        batch = with_definition(alloc, batch, catalog, place)?;
    }
    Ok(batch)
}

// With the definition of the group at a place, by its text, which has less than 2^32 bytes.
fn with_definition(
    alloc: Global,
    batch: Batch,
    catalog: &mut Catalog,
    place: usize,
) -> Result<Batch, AllocError>
    requires { place < length (groups_in catalog.old) }
    ensures adds { IfOk result (λ made. (g : Group) → slice_get (groups_in catalog.old) place ≡ Some g
        → AddsAll (definition_entry g ∷ []) batch made) }
    ensures same { catalog.new ≡ catalog.old }
{
    let text = catalog.definition_text(alloc, place)?;
    let bytes = text.as_bytes();
    if bytes.len() >= 1 << 32 {
        return Err(AllocError);
    }
    let made = batch.with_definition(alloc, bytes)?;
    Ok(made)
}

// With the STATEs of the READONLY groups behind the others.
fn with_states(alloc: Global, batch: Batch, catalog: &Catalog) -> Result<Batch, AllocError>
    ensures { IfOk result (AddsAll (state_entries (groups_in catalog.now)) batch) }
{
    let mut batch = batch;
    for place in 0..catalog.len() {
        let Some(group) = catalog.get(place) else {
            return Err(AllocError);
        };
        batch = with_state(alloc, batch, group)?;
    }
    Ok(batch)
}

// With the STATE of the group, where it is a READONLY one.
fn with_state(alloc: Global, batch: Batch, group: &KeptGroup) -> Result<Batch, AllocError>
    ensures { IfOk result (AddsAll (state_entries (group_seen group.now ∷ [])) batch) }
{
    if !is_read_only(group) {
        return Ok(batch);
    }
    let name = group.def.name.as_bytes();
    if name.len() >= 256 {
        return Err(AllocError);
    }
    let made = batch.with_state(alloc, name, group.state)?;
    Ok(made)
}

// With the flags that are set behind the others.
fn with_flags(alloc: Global, batch: Batch, catalog: &Catalog) -> Result<Batch, AllocError>
    ensures { IfOk result (AddsAll (flag_entries (groups_in catalog.now)) batch) }
{
    let mut batch = batch;
    for place in 0..catalog.len() {
        let Some(group) = catalog.get(place) else {
            return Err(AllocError);
        };
        batch = with_flag(alloc, batch, group)?;
    }
    Ok(batch)
}

// With the flag of the group, where it is set.
fn with_flag(alloc: Global, batch: Batch, group: &KeptGroup) -> Result<Batch, AllocError>
    ensures { IfOk result (AddsAll (flag_entries (group_seen group.now ∷ [])) batch) }
{
    if !group.loaded {
        return Ok(batch);
    }
    let name = group.def.name.as_bytes();
    if name.len() >= 256 {
        return Err(AllocError);
    }
    let made = batch.with_loaded(alloc, name, true)?;
    Ok(made)
}
