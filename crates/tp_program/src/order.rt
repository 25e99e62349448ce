//! What holds where everything is in order. The calls do nothing: their contracts are the laws.

ghost use Rattle.tp_program.specs.ChecksInOrder.{NoCheckIsRefused, NoLawfulLogIsRefused, NoRunIsRejected};
ghost use Rattle.tp_program.specs.FarmsInOrder.{NoFarmIsRefused};
ghost use Rattle.tp_program.specs.InOrder.{NoRackIsRefused, NoRunIsRefused};
ghost use Rattle.tp_program.specs.ResumesInOrder.{NoResumeIsRefused};

use tp_log_laws::bound_runs_are_accepted;
use tp_run_laws::bound_runs_have_short_lines;
use tp_snapshot::snapshots_are_read_back;

/// Where the words ask for a run, saved or not, name the text of a machine, and the script keeps its sizes, no cause of a refusal holds. So
/// where the outside doesn't fail either, a run ends in `Done`, or in `Memory`.
pub fn runs_in_order_are_answered()
    ensures { NoRunIsRefused }
{}

/// Where the words ask to go on from a snapshot, and snapshot and script keep their sizes, no cause of a refusal holds. So where the
/// outside doesn't fail either, the run ends in `Done`, or in `Memory`.
pub fn resumes_in_order_are_answered()
    ensures { NoResumeIsRefused }
{
    snapshots_are_read_back();
}

/// Where the words ask for a check, name the text of a machine, and the log keeps its sizes, no cause of a refusal holds but a flaw of the
/// log. So where the outside doesn't fail either, a check ends in `Done`, in `Rejected`, or in `Memory`.
pub fn checks_in_order_are_answered()
    ensures { NoCheckIsRefused }
{}

/// If the words ask for a check and name the text of a machine, and the log keeps its sizes and is lawful with bounds on that machine, but for
/// the causes of its budgets, no cause of a refusal holds, `Rejected` included. So if the outside doesn't fail either, a check ends in
/// `Done`, or in `Memory`.
pub fn lawful_logs_are_accepted()
    ensures { NoLawfulLogIsRefused }
{}

/// If a run with bounds wrote the log, it has at most 10^18 bytes, and the words ask for a check of it on the same machine, no cause of a refusal
/// holds, `Rejected` included. So if the outside doesn't fail either, the check ends in `Done`, or in `Memory`.
pub fn runs_are_accepted()
    ensures { NoRunIsRejected }
{
    bound_runs_are_accepted();
    bound_runs_have_short_lines();
}

/// Where the words ask for what is composed of a rack, and name the text of one, no cause of a refusal holds. So where the
/// outside doesn't fail either, composing ends in `Done`, or in `Memory`.
pub fn racks_in_order_are_composed()
    ensures { NoRackIsRefused }
{}

/// Where the words ask for a farm, its list names machine texts, and list, texts and script keep their sizes, no cause of a refusal
/// holds. So where the outside doesn't fail either, a farm ends in `Done`, or in `Memory`.
pub fn farms_in_order_are_answered()
    ensures { NoFarmIsRefused }
{}
