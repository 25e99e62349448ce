//! A log that was saved, and one that was resumed from its snapshot. The call does nothing: its contract is the law.

ghost use Rattle.tp_program.specs.JoinedLogs.{ResumedLogsJoin};

use tp_run_laws::answered_events_go_on;
use tp_snapshot::snapshots_are_read_back;

/// The log that was saved, with the one behind it that was resumed from its snapshot, is the log of one lawful run over both scripts.
pub fn resumed_logs_join()
    ensures { ResumedLogsJoin }
{
    answered_events_go_on();
    snapshots_are_read_back();
}
