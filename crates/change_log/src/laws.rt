//! Laws of the definitions, each on the contract of a function that does nothing.

ghost use Rattle.change_log.specs.Laws.{HistoryLeads, HistoryNets, LogIsOver, LogSplits, LogsAppend, NetIsChanged, OperationLeads};

/// The entries that are written beside operations lead from one state to the next, one log behind the other too. The
/// net of such a log, in some tables, is what changed in them.
pub fn net_law()
    ensures operation_leads { OperationLeads }
    ensures history_leads { HistoryLeads }
    ensures logs_append { LogsAppend }
    ensures log_splits { LogSplits }
    ensures net_is_changed { NetIsChanged }
    ensures log_is_over { LogIsOver }
    ensures history_nets { HistoryNets }
{}
