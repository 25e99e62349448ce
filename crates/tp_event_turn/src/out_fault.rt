//! Why a module can't go out or come back.

use tp_base::Name;

/// Why a `jam`, an `off` or an `on` is refused, with the name that it gave: no module has the name, the module is out
/// already, or it isn't out.
#[derive(Clone, Copy, PartialEq, Eq, Debug)]
pub enum OutFault {
    UnknownModule(Name),
    AlreadyOut(Name),
    NotOut(Name),
}
