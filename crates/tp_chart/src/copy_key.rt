//! The name of a copy as a key, which is looked up by hash.
ghost use Rattle.std.specs.Prelude.{◌≡◌};
ghost use Rattle.tp_chart.specs.Courses.{key_of};

use tp_base::Name;
use tp_schedule::SheetName;

/// The name of a copy.
#[derive(Clone, Copy, PartialEq, Eq, Hash)]
pub struct CopyKey {
    job: Name,
    number: u32,
    copy: u32,
}

impl CopyKey {
    pub(crate) fn of(sheet: &SheetName) -> CopyKey
        ensures { result ≡ key_of sheet.now }
    {
        CopyKey {
            job: sheet.job,
            number: sheet.number,
            copy: sheet.copy,
        }
    }
}
