//! Laws of recovery, each on the contract of a function that does nothing. All are this project's rules, over
//! recovery as the TimesTen Cache User's Guide tells of it.

ghost use Rattle.std.specs.Prelude.{◌≡◌, ◌++◌, ◌≤◌, ℕ, List, [], map, true};
ghost use Rattle.order_laws.specs.table_state.specs.declared.history.Entry.{Entry};
ghost use Rattle.order_laws.specs.table_state.specs.declared.history.Sealed.{Sealed};
ghost use Rattle.order_laws.specs.table_state.specs.Histories.{entry_of};
ghost use Rattle.order_laws.specs.Commits.{pending};
ghost use Rattle.order_laws.specs.Standing.{Stand, progress_of};
ghost use Rattle.recovery_laws.specs.Notes.{Note, catalog_of, groups_of, log_in, next_of};
ghost use Rattle.recovery_laws.specs.Matching.{IsMatched, IsRecovered, Recovers, Resumes};
ghost use Rattle.recovery_laws.specs.Crashes.{AtMoment, Event, IsLeft, Path, Stands, StandsOn, World, given, with_flushed};
ghost use Rattle.recovery_laws.specs.Rotations.{HoldsPending, MayRotate, rotated};

/// The transactions of a journal and a history that match stand (`stands`), and a recovery may go on with the
/// journal's own commits (`resumes`). A serial round brings what is pending (`recovers`), any other legal round keeps
/// that they match (`round`), and recovering again brings nothing (`again`).
pub fn recovery_law()
    ensures stands { (notes : List Note) (h : List Entry) → IsMatched notes h
        → Stand (progress_of (groups_of notes) h (log_in h notes) (next_of notes)) }
    ensures resumes { (notes : List Note) (h : List Entry) → IsMatched notes h → Resumes notes h }
    ensures recovers { (notes : List Note) (h : List Entry) → IsMatched notes h
        → IsRecovered notes h (h ++ map entry_of (pending h (log_in h notes))) }
    ensures round { (notes : List Note) (h n : List Entry) → Recovers notes h n → IsMatched notes h
        → IsMatched notes n × (log_in n notes ≡ log_in h notes) }
    ensures again { (notes : List Note) (h later : List Entry) → IsRecovered notes h later
        → later ++ map entry_of (pending later (log_in later notes)) ≡ later }
{}

/// What a crash leaves at a moment of a request matches, and holds a front of the asynchronous commits, in which are
/// those that were held before (`moment`). What holds between requests holds behind each (`path`).
pub fn crash_law()
    ensures path { (w x : World) (early : List Sealed) → Path w x → Stands w early → StandsOn x early }
    ensures moment { (w x : World) (early : List Sealed) (notes : List Note) (h : List Entry) → Stands w early
        → AtMoment w x notes h → IsLeft early x.commits notes h }
{}

/// What a rotation puts in the journal's place matches, with any flags (`matches`), and the rotation is an event
/// (`event`): it loses no commit that was held.
pub fn rotation_law()
    ensures matches { (notes : List Note) (h : List Entry) (flags : List (List ℕ × ℕ)) (us : List Sealed) (next : ℕ)
        → IsMatched notes h → MayRotate notes h us next
        → IsMatched (rotated next (catalog_of notes).groups flags us) h }
    ensures event { (w : World) (early : List Sealed) (flags : List (List ℕ × ℕ)) (us : List Sealed) (next : ℕ)
        → Stands w early → w.late ≡ [] → MayRotate (given w) w.history us next
        → HoldsPending (given w) w.history us
        → Event w (with_flushed (rotated next (catalog_of (given w)).groups flags us) w) }
{}
