//! A law of a new site, on the contract of a function that does nothing.

ghost use Rattle.tier_base.specs.declared.number.TableId.{TableId};
ghost use Rattle.std.specs.Prelude.{List};
ghost use Rattle.outside.specs.Holding.{Held};
ghost use Rattle.tier_opening.specs.Opening.{IsNewSite, MayOpen};

/// A new site may be opened: one whose journal was never used, and in whose history no transaction of a tier stands.
pub fn new_site_law()
    ensures { (shared : List TableId) (o : Held) → IsNewSite o → MayOpen shared o }
{}
