//! What a job is refused for, looked up in the machine.
ghost use Rattle.std.specs.Prelude.{◌≡◌, ◌*◌, ◌<◌, ◌≤◌, ◌^◌, length};
ghost use Rattle.std.specs.List.{list_any};
ghost use Rattle.std.specs.Str.{bytes_eq};
ghost use Rattle.tp_machine.specs.Rules.{is_among};
ghost use Rattle.tp_script.specs.Form.{most_sheets};
ghost use Rattle.tp_jobs.specs.JobRefusals.{tray_named, sheet_count};

use tp_base::Name;
use tp_machine::{Feeder, LocId, Machine};
use tp_script::Group;

/// The tray of this name.
pub(crate) fn find_tray(machine: &Machine, name: &Name) -> Option<LocId>
    ensures { result ≡ tray_named machine.now name.now }
{
    let loc = LocId(machine.locations.find(name)?);
    if is_tray(machine.trays.as_slice(), loc) {
        Some(loc)
    } else {
        None
    }
}

fn is_tray(trays: &[LocId], loc: LocId) -> bool
    ensures { result ≡ is_among trays.now loc }
{
    trays.iter().any(|tray| tray.0 == loc.0)
}

/// Whether a feeder has the media.
pub(crate) fn has_feeder(feeders: &[Feeder], media: &Name) -> bool
    ensures { result ≡ list_any (λ f. bytes_eq media.now f.media) feeders.now }
{
    feeders.iter().any(|feeder| *media == feeder.media)
}

/// How many sheets the groups ask for.
pub(crate) fn count_sheets(groups: &[Group]) -> u64
    requires { length groups.now < 2 ^ 32 }
    ensures sheets { result ≡ sheet_count groups.now }
    ensures few { result ≤ most_sheets * length groups.now }
{
    let mut sheets = 0;
    for group in groups {
        sheets += u64::from(group.count);
    }
    sheets
}
