//! Laws of the definitions, on the contract of a function that does nothing.

ghost use Rattle.cache_tier.specs.WayFacts.{EarlierOnTheWay, FlushLeads, LaterOnTheWay, NoteLeads, RotateLeads, WaysGoOn};
ghost use Rattle.cache_tier.specs.Facts.{AgedIsHidden, CommitsNothing, DoubtIsGone, HorizonGrows, JoinHasOnePosition, OverIsApplied, RefreshHasOnePosition, IdleIsUntouched, RefusedIsAsBefore, RunsGoOn, SelectsQuietly, TakenIsGone};
ghost use Rattle.cache_tier.specs.Distinct.{AgingKeepsApart, CommitKeepsApart, LoadKeepsApart, RefreshKeepsApart, UnloadKeepsApart, UseKeepsApart};
ghost use Rattle.cache_tier.specs.Positions.{RunKeepsOnePosition, StepKeepsOnePosition};
ghost use Rattle.cache_tier.specs.Tickets.{RunKeepsOnce, StepKeepsOnce};
ghost use Rattle.cache_tier.specs.Worked.{JournalExample, LastUseExample, SetExample, TimeExample, WantExample};
ghost use Rattle.cache_tier.specs.FirstRun.{FirstRun};
ghost use Rattle.cache_tier.specs.GoesOn.{RunKeepsJournal, RunLeads, StepKeepsJournal, StepKeepsWay, StepLeads};
ghost use Rattle.cache_tier.specs.MoreFacts.{AloneIsFree, LoadShowsView, RunIsCaused, StartStands};
ghost use Rattle.cache_tier.specs.Standing.{IsStanding};
ghost use Rattle.cache_tier.specs.Steps.{Run};

/// Small facts of the abstract tier.
pub fn tier_law()
    ensures selects_quietly { SelectsQuietly }
    ensures commits_nothing { CommitsNothing }
    ensures refresh_has_one_position { RefreshHasOnePosition }
    ensures join_has_one_position { JoinHasOnePosition }
    ensures aged_is_hidden { AgedIsHidden }
    ensures horizon_grows { HorizonGrows }
    ensures taken_is_gone { TakenIsGone }
    ensures doubt_is_gone { DoubtIsGone }
    ensures over_is_applied { OverIsApplied }
    ensures runs_go_on { RunsGoOn }
    ensures idle_is_untouched { IdleIsUntouched }
    ensures refused_is_as_before { RefusedIsAsBefore }
    ensures run_is_caused { RunIsCaused }
    ensures load_shows_view { LoadShowsView }
    ensures alone_is_free { AloneIsFree }
    ensures start_stands { StartStands }
    ensures ways_go_on { WaysGoOn }
    ensures earlier_on_the_way { EarlierOnTheWay }
    ensures later_on_the_way { LaterOnTheWay }
    ensures flush_leads { FlushLeads }
    ensures note_leads { NoteLeads }
    ensures rotate_leads { RotateLeads }
    ensures step_leads { StepLeads }
    ensures run_leads { RunLeads }
    ensures step_keeps_journal { StepKeepsJournal }
    ensures step_keeps_way { StepKeepsWay }
    ensures run_keeps_journal { RunKeepsJournal }
    ensures step_keeps_once { StepKeepsOnce }
    ensures run_keeps_once { RunKeepsOnce }
    ensures step_keeps_one_position { StepKeepsOnePosition }
    ensures run_keeps_one_position { RunKeepsOnePosition }
    ensures load_keeps_apart { LoadKeepsApart }
    ensures use_keeps_apart { UseKeepsApart }
    ensures unload_keeps_apart { UnloadKeepsApart }
    ensures refresh_keeps_apart { RefreshKeepsApart }
    ensures commit_keeps_apart { CommitKeepsApart }
    ensures aging_keeps_apart { AgingKeepsApart }
    ensures first_run { FirstRun }
    ensures last_use { LastUseExample }
    ensures time { TimeExample }
    ensures set { SetExample }
    ensures want { WantExample }
    ensures journal { JournalExample }
{}
