//! The law of what each line keeps, be its faults counted or not.

ghost use Rattle.cache_tier.specs.Heeding.{HeedLeads};

/// What a line does, whether or not each fault that it tells has its cause.
pub fn heed_law()
    ensures { HeedLeads }
{}
