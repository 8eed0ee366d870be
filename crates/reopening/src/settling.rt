//! The round with which a tier is opened again, before it is built.

ghost use Rattle.std.specs.Prelude.{◌≡◌, IfErr, OnOk, []};
ghost use Rattle.propagators.specs.Certainty.{KeepsCertain};
ghost use Rattle.reopening.specs.Building.{SettlesCommits};
ghost use Rattle.reopening.specs.Starting.{DiffersAs, IsReopenCaused};

use crate::start::{ReopenError, told_of};
use cache_tier::round_shown_law;
use outside::Site;
use propagators::laws::{follow_law, left_law};
use propagators::round;
use std::alloc::Global;
use std::collections::VecDeque;
use table_state::Sealed;

// A round over the commits that entries tell of. Those whose receipt it sees leave; they may be of groups that were
// dropped since, so no tier has them.
//
// After a fault those without a receipt are left.
pub(crate) fn settle_commits<P: Site>(
    alloc: Global,
    site: &mut P,
    commits: &mut VecDeque<Sealed>,
) -> Result<(), ReopenError>
    ensures settles { SettlesCommits commits.old.items commits.new.items
        (P.Disk.state site.old)
        (P.Disk.state site.new)
        result }
    ensures all { OnOk result (commits.new.items ≡ []) }
    ensures differs { IfErr result (DiffersAs commits.old.items
        (P.Disk.state site.old)
        (P.Disk.state site.new)) }
    ensures cause { IsReopenCaused
        (P.Disk.state site.old)
        (P.Disk.state site.new)
        result }
    ensures certain { KeepsCertain P.Disk.state P.Disk.possible site.old site.new }
{
    left_law();
    follow_law();
    round_shown_law();
    match round(site, commits) {
        Ok(_) => Ok(()),
        Err(fault) => Err(told_of(alloc, &fault)),
    }
}
