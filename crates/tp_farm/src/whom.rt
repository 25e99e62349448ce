//! To which machines an event is sent.

ghost use Rattle.std.specs.Prelude.{◌≡◌};
ghost use Rattle.tp_farm.specs.Farms.{is_for};

/// To which machines of a farm an event is sent.
#[derive(Clone, Copy, PartialEq, Eq, Debug)]
pub enum Whom {
    Every,
    /// The machine of this number, counted from 1.
    One(u32),
}

impl Whom {
    /// Whether the event is sent to the machine of this number.
    pub fn has(self, number: u32) -> bool
        ensures { result ≡ is_for self number }
    {
        match self {
            Whom::Every => true,
            Whom::One(one) => one == number,
        }
    }
}
