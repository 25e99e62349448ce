//! What holds if everything but the log itself is in order. The calls do nothing: their contracts are the laws.

ghost use Rattle.tp_verify.specs.InOrder.{NoCheckIsRefused, NoLawfulLogIsRefused, NoRunIsRejected};

use tp_log_laws::bound_runs_are_accepted;
use tp_run_laws::bound_runs_have_short_lines;

/// If the words name the text of a machine, and the log keeps its sizes, no cause of a refusal holds but a flaw of the log. So if the
/// outside does not fail either, a check ends in `Done`, in `Rejected`, or in `Memory`.
pub fn logs_in_order_are_verified()
    ensures { NoCheckIsRefused }
{}

/// If the words name the text of a machine, and the log keeps its sizes and is lawful with bounds on that machine, but for the causes
/// of its budgets, no cause of a refusal holds, `Rejected` included. So if the outside does not fail either, a check ends in `Done`,
/// or in `Memory`.
pub fn lawful_logs_are_verified()
    ensures { NoLawfulLogIsRefused }
{}

/// If a run with bounds wrote the log, it has at most 10^18 bytes, and the words name the text of its machine, no cause of a refusal
/// holds, `Rejected` included. So if the outside does not fail either, the check ends in `Done`, or in `Memory`.
pub fn runs_are_verified()
    ensures { NoRunIsRejected }
{
    bound_runs_are_accepted();
    bound_runs_have_short_lines();
}
