//! A tier is opened again.

ghost use Rattle.std.specs.Prelude.{◌≡◌, [], IfErr, IfOk};
ghost use Rattle.propagators.specs.Certainty.{KeepsCertain};
ghost use Rattle.stored_tier.specs.Stored.{IsSound};
ghost use Rattle.reopening.specs.Building.{HoldsNothing};
ghost use Rattle.reopening.specs.Starting.{DiffersAs, IsInOrder, IsOfCall, IsReopenCaused, Refills, ReopensFrom};

use crate::building::built_tier;
use crate::reloading::reload;
use crate::settling::settle_commits;
use crate::start::{ReopenError, Start, error_of};
use outside::Site;
use std::alloc::Global;
use stored_tier::tier::Tier;

/// Opens a tier again over what its journal's entries leave. The commits are applied at the bank in ticket order. Then
/// rows come back: explicit READONLY groups whose flag is set show their views at one position, and each explicit
/// writethrough group whose flag is set holds all its instances. The others hold nothing; dynamic groups among them
/// load on demand. Nothing is unsettled then, no session is open, and sets count from this moment. The journal isn't
/// written to.
///
/// `Failed` only where a call of the bank failed, and the count of its faults rose in this call; `Differs` with the
/// table and the key only where a backing row wasn't as a commit tells, as that was tried; `Memory` where memory was
/// wanting. There is no tier then, and what was applied at the bank stands there.
///
/// (TimesTen Cache User's Guide, "Recovery"; that the rows of all groups whose flag is set come back is this project's
/// rule.)
pub fn reopen<P: Site>(alloc: Global, site: &mut P, start: Start) -> Result<Tier, ReopenError>
    requires { IsInOrder start }
    ensures reopens { ReopensFrom start
        (P.Disk.state site.old)
        (P.Disk.state site.new)
        result }
    ensures sound { IfOk result IsSound }
    ensures differs { IfErr result (DiffersAs start.commits.items
        (P.Disk.state site.old)
        (P.Disk.state site.new)) }
    ensures cause { IsReopenCaused
        (P.Disk.state site.old)
        (P.Disk.state site.new)
        result }
    ensures certain { KeepsCertain P.Disk.state P.Disk.possible site.old site.new }
{
    let (next, now, pace) = (start.next, start.now, start.pace);
    let (schema, catalog, commits) = start.into_parts();
    let mut commits = commits;
    match settle_commits(alloc, site, &mut commits) {
        Err(error) => Err(error),
        Ok(()) => match built_tier(alloc, schema, catalog, next, now, pace) {
            Err(_) => Err(ReopenError::Memory),
            Ok(tier) => refill(tier, alloc, site),
        },
    }
}

// The rows of a tier that was built come back.
fn refill<P: Site>(tier: Tier, alloc: Global, site: &mut P) -> Result<Tier, ReopenError>
    requires sound { IsSound tier }
    requires settled { tier.unsettled.items ≡ [] }
    requires bare { HoldsNothing tier }
    ensures refills { Refills tier
        (P.Disk.state site.old)
        (P.Disk.state site.new)
        result }
    ensures sound { IfOk result IsSound }
    ensures call { IfErr result IsOfCall }
    ensures cause { IsReopenCaused
        (P.Disk.state site.old)
        (P.Disk.state site.new)
        result }
    ensures certain { KeepsCertain P.Disk.state P.Disk.possible site.old site.new }
{
    let mut tier = tier;
    match reload(&mut tier, alloc, site) {
        Err(error) => Err(error_of(error)),
        Ok(()) => Ok(tier),
    }
}
