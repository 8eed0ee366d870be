//! What open sessions do: a law for each event. All are this project's rules, over the writethrough cache groups of the
//! TimesTen Cache User's Guide.

ghost use Rattle.std.specs.Prelude.{◌≡◌, ℕ, List, Some, None};
ghost use Rattle.sql_subset.specs.declared.request.OpenOptions.{OpenOptions};
ghost use Rattle.table_state.specs.declared.operation.Op.{Op};
ghost use Rattle.cache_tier.specs.CommitSteps.{ends};
ghost use Rattle.cache_tier.specs.SessionSteps.{close_answer, flag_answer, open_answer, open_fault};
ghost use Rattle.cache_tier.specs.TierStates.{Session, session_of, with_session, with_writes};
ghost use Rattle.cache_tier.specs.Worlds.{World};
ghost use Rattle.cache_tier.specs.StandingBetween.{Stands};
ghost use Rattle.cache_tier.specs.Events.{MayWriteMore, StaysShown, with_tier};

/// A session writes more, where the tests of a write let it (`writes`). It takes its writes back (`ends`), sets its
/// passthrough level (`sets`), closes with what it had written (`closes`), and another opens (`opens`). What is shown
/// stays.
pub fn session_law()
    ensures writes { (w : World) (s : Session) (ops : List Op) → Stands w → MayWriteMore w s ops
        → StaysShown w (with_tier (with_session s.label (with_writes ops) w.tier) w) }
    ensures ends { (w : World) (s : Session) → Stands w → session_of w.tier s.label ≡ Some s
        → StaysShown w (with_tier (ends s w.tier) w) }
    ensures sets { (w : World) (s : Session) (level : ℕ) → Stands w → session_of w.tier s.label ≡ Some s
        → StaysShown w (with_tier (flag_answer w.tier s.label level).0 w) }
    ensures closes { (w : World) (s : Session) → Stands w → session_of w.tier s.label ≡ Some s
        → StaysShown w (with_tier (close_answer w.tier s.label).0 w) }
    ensures opens { (w : World) (label : List ℕ) (options : OpenOptions) → Stands w → open_fault w.tier label ≡ None
        → StaysShown w (with_tier (open_answer w.tier label options).0 w) }
{}
