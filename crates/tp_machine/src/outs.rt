//! The modules that are out.

ghost use Rattle.std.specs.Prelude.{◌≡◌, ◌<◌};
ghost use Rattle.tp_machine.specs.Limits.{most_modules};

use crate::parts::{ModId, Outs};

impl Outs {
    ghost use Rattle.tp_machine.specs.ModuleUse.{is_out, put_on, put_out};

    /// Whether the module is out.
    pub fn contains(self, id: ModId) -> bool
        ensures { result ≡ is_out self id.0 }
    {
        id.0 < 64 && (self.0 >> id.0) & 1 == 1
    }

    /// These modules and one more.
    pub fn put_out(self, id: ModId) -> Outs
        requires { id.0 < most_modules }
        ensures { result ≡ put_out self id.0 }
    {
        Outs(self.0 | 1 << id.0)
    }

    /// These modules but for one.
    pub fn put_on(self, id: ModId) -> Outs
        requires { id.0 < most_modules }
        ensures { result ≡ put_on self id.0 }
    {
        Outs(self.0 & !(1 << id.0))
    }
}
