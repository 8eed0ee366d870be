//! The net of a log.

ghost use Rattle.std.specs.Prelude.{◌≡◌, [], ◌++◌, List, IfOk, OnOk, not, option_copied, true, if◌then◌else◌};
ghost use Rattle.std.specs.FinMap as map;
ghost use Rattle.table_state.specs.row_types.specs.declared.value.Value.{Value as OneValue};
ghost use Rattle.table_state.specs.tier_base.specs.declared.number.TableId.{TableId as OneTable};
ghost use Rattle.change_log.specs.Logs.{IsNet, is_at, is_changed, is_same_row};
ghost use Rattle.change_log.specs.Netting.{HoldsKeys, HoldsLast, net_from, to_last, where_it_differs};
ghost use Rattle.change_log.specs.Tags.{tagged};

use crate::log::{Log, RowChange};
use crate::tags::tagged;
use std::alloc::{AllocError, Global};
use table_state::indexed_rows::{Rows, is_same_row};
use table_state::row_types::Row;
use table_state::tier_base::Seq;

/// The net of a log: one entry for each key whose row before its first entry and after its last one differ, in the
/// order of the first entries.
///
/// It costs two look-ups for each entry. It fails for want of memory alone.
pub fn net(alloc: Global, log: &Log) -> Result<Log, AllocError>
    ensures { IfOk result (λ net. IsNet log.now net) }
{
    let out = net_of(alloc, log.as_slice())?;
    Ok(Seq::from_vec(out))
}

fn net_of(alloc: Global, log: &[RowChange]) -> Result<Vec<RowChange>, AllocError>
    ensures { IfOk result (λ out. out.items ≡ net_from log.now [] log.now) }
{
    let news = last_rows(alloc, log)?;
    let mut seen = Rows::new(alloc);
    let mut out = Vec::new(alloc);
    for change in log {
        let new = see(alloc, &mut seen, change)?;
        add_net_where(alloc, new, &mut out, &news, change, log)?;
    }
    Ok(out)
}

// The rows behind the log.
fn last_rows(alloc: Global, log: &[RowChange]) -> Result<Rows, AllocError>
    ensures { IfOk result (HoldsLast log.now) }
{
    let mut news = Rows::new(alloc);
    for change in log {
        put_last(alloc, &mut news, change)?;
    }
    Ok(news)
}

fn put_last(alloc: Global, news: &mut Rows, change: &RowChange) -> Result<(), AllocError>
    ensures { OnOk result ((t : OneTable) (key : List OneValue) → map.get news.new (tagged t key)
        ≡ (if is_at t key change.now then change.now.new else map.get news.old (tagged t key))) }
{
    let tag = tagged(alloc, change.table, &change.key)?;
    let _ = news.remove(&tag);
    match &change.new {
        None => Ok(()),
        Some(row) => {
            let copy = row.copied(alloc)?;
            let _ = news.insert(tag, copy)?;
            Ok(())
        }
    }
}

// Whether the key is new to those seen, to which it comes.
fn see(alloc: Global, seen: &mut Rows, change: &RowChange) -> Result<bool, AllocError>
    ensures new { IfOk result (λ new. new ≡ not (map.contains_key seen.old (tagged change.now.table change.now.key))) }
    ensures seen { OnOk result ((t : OneTable) (key : List OneValue) → map.contains_key seen.new (tagged t key)
        ≡ (if is_at t key change.now then true else map.contains_key seen.old (tagged t key))) }
{
    let tag = tagged(alloc, change.table, &change.key)?;
    let new = seen.insert(tag, Row::from_vec(Vec::new(alloc)))?;
    Ok(new)
}

// Puts in the net entry of a key that is new, where its row differs.
fn add_net_where(
    alloc: Global,
    new: bool,
    out: &mut Vec<RowChange>,
    news: &Rows,
    change: &RowChange,
    log: &[RowChange],
) -> Result<(), AllocError>
    requires { HoldsLast log.now news.now }
    ensures { OnOk result (out.new.items
        ≡ out.old.items ++ (if new then where_it_differs (to_last log.now change.now) else [])) }
{
    if new {
        add_net(alloc, out, news, change, log)?;
    }
    Ok(())
}

// Puts in the net entry of a key, where its row differs.
fn add_net(
    alloc: Global,
    out: &mut Vec<RowChange>,
    news: &Rows,
    change: &RowChange,
    log: &[RowChange],
) -> Result<(), AllocError>
    requires { HoldsLast log.now news.now }
    ensures { OnOk result (out.new.items ≡ out.old.items ++ where_it_differs (to_last log.now change.now)) }
{
    let tag = tagged(alloc, change.table, &change.key)?;
    let last = news.get(&tag);
    if is_same_place(&change.old, last) {
        return Ok(());
    }
    let key = change.key.copied(alloc)?;
    let old = copied_row(alloc, row_of(&change.old))?;
    let new = copied_row(alloc, last)?;
    out.push(RowChange {
        table: change.table,
        key,
        old,
        new,
    })?;
    Ok(())
}

fn row_of(row: &Option<Row>) -> Option<&Row>
    ensures { option_copied result ≡ row.now }
{
    row.as_ref()
}

pub(crate) fn is_same_place(a: &Option<Row>, b: Option<&Row>) -> bool
    ensures { result ≡ is_same_row a.now (option_copied b.entry) }
{
    match (a, b) {
        (None, None) => true,
        (Some(a), Some(b)) => is_same_row(a, b),
        _ => false,
    }
}

pub(crate) fn copied_row(alloc: Global, row: Option<&Row>) -> Result<Option<Row>, AllocError>
    ensures { IfOk result (λ copy. copy ≡ option_copied row.entry) }
{
    match row {
        None => Ok(None),
        Some(row) => Ok(Some(row.copied(alloc)?)),
    }
}
