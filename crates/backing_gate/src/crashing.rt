//! What a crash leaves of a site.

ghost use Rattle.std.specs.Prelude.{◌≡◌, ◌≤◌, length, IfOk};
ghost use Rattle.memory_disk.specs.Possible.{IsUnplanned, moment_of as disk_moment};
ghost use Rattle.backing_gate.specs.Memory.{IsCertain, held_of, left_at, moment_of, possible_of, site_of, then_of};

use crate::mark::{Mark, least};
use crate::memory_site::MemorySite;
use memory_disk::Pick;
use std::alloc::AllocError;

impl MemorySite {
    /// The site that a crash at this moment leaves, as picked of what is possible then: its slots hold the old bytes,
    /// the new ones, FF or those of a generator in each range that isn't certain, and its history is what it was then.
    /// It holds that for certain, and nothing is planned for it. The moment is at most the present one.
    ///
    /// It fails for want of memory alone.
    pub fn crash(&self, moment: u64, pick: Pick) -> Result<MemorySite, AllocError>
        requires { moment ≤ moment_of self.now }
        ensures possible { IfOk result (λ site. possible_of self.now moment (held_of site)) }
        ensures picked { IfOk result (λ site. held_of site ≡ left_at self.now moment pick) }
        ensures certain { IfOk result IsCertain }
        ensures fresh { IfOk result (λ site. site ≡ site_of site.disk site.history) }
        ensures unplanned { IfOk result (λ site. IsUnplanned site.disk) }
    {
        let mark = self.mark_at(moment);
        let disk = self.disk.crash(mark.calls, pick)?;
        let bank = self.bank.at(self.alloc, mark.entries as usize)?;
        Ok(MemorySite::of(self.alloc, disk, bank))
    }

    // How far the site was at a moment.
    fn mark_at(&self, moment: u64) -> Mark
        requires { moment ≤ moment_of self.now }
        ensures is { result ≡ then_of self.now moment }
        ensures calls { result.calls ≤ disk_moment self.now.disk }
        ensures entries { result.entries ≤ length self.now.history }
    {
        self.least_from(moment)
    }

    // The least of the marks from a moment on, and of how far the site is.
    fn least_from(&self, moment: u64) -> Mark
        requires { moment ≤ moment_of self.now }
        ensures { result ≡ then_of self.now moment }
    {
        let now = self.mark();
        least(&self.past[moment as usize..], now)
    }
}
