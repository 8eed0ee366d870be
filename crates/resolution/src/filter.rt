//! Conditions over the columns of one table.

ghost use Rattle.std.specs.Prelude.{◌≡◌, IfOk};
ghost use Rattle.resolution.specs.Literals.{unheld_in_filter};
ghost use Rattle.resolution.specs.Placing.{filter_seen, placed_filter};
ghost use Rattle.resolution.specs.Results.{Gives};
ghost use Rattle.resolution.specs.Scopes.{columns_seen};
ghost use Rattle.resolution.specs.WrittenTypes.{is_sound_filter};

use crate::placing::{has_sound_filter, place_filter};
use crate::scope::{columns_seen, families};
use evaluator::expressions::Cond;
use evaluator::row_types::{Column, Refused};
use evaluator::tier_base::Name;
use sql_query::Condition;
use std::alloc::Global;

/// A condition whose names are found, and what is to be judged of it.
pub struct ResolvedFilter {
    /// the condition with places in place of names, where there is one
    pub cond: Option<Cond>,
    /// whether it keeps the rule of types: else it is to be refused with 104
    pub sound: bool,
    /// whether no type holds some literal of it: then it is to be refused with 105
    pub unheld: bool,
}

impl ResolvedFilter {
    /// The condition, where there is one.
    pub fn into_cond(self) -> Option<Cond>
        ensures { result ≡ self.cond }
    {
        let Self {
            cond,
            sound: _,
            unheld: _,
        } = self;
        cond
    }
}

impl Drop for ResolvedFilter {
    fn drop(self) {
        let Self {
            cond: _,
            sound: _,
            unheld: _,
        } = self;
    }
}

/// The condition behind a WHERE, where there is one, over the columns of the table of this name.
///
/// The refusal is 103 of the first name, in the order of the text, that fits no column; or memory was wanting. What is
/// judged then, 104 and 105, is told beside the condition and refuses nothing yet, so that of several conditions all
/// 103 can come before any 104, and all 104 before any 105. (TimesTen SQL Reference, "CREATE CACHE GROUP" and "LOAD
/// CACHE GROUP": WHERE; codes and their order are this project's rule.)
pub fn resolve_filter(
    alloc: Global,
    table: &Name,
    columns: &[Column],
    filter: &Option<Condition>,
) -> Result<ResolvedFilter, Refused>
    ensures placed { Gives (λ f. filter_seen f.cond)
        (placed_filter (columns_seen table.now columns.now) filter.now) result }
    ensures sound { IfOk result (λ f. f.sound ≡ is_sound_filter (columns_seen table.now columns.now) filter.now) }
    ensures unheld { IfOk result (λ f. f.unheld ≡ unheld_in_filter filter.now) }
{
    let scope = columns_seen(alloc, table, columns)?;
    let scope = scope.as_slice();
    let mut unheld = false;
    let cond = place_filter(alloc, scope, filter, &mut unheld)?;
    let families = families(alloc, scope)?;
    let sound = has_sound_filter(&cond, families.as_slice());
    Ok(ResolvedFilter {
        cond,
        sound,
        unheld,
    })
}
