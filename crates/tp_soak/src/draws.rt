//! The numbers that a case is made by.

ghost use Rattle.std.specs.Prelude.{◌≡◌, ◌<◌};
ghost use Rattle.tp_soak.specs.Draws.{drawn, first_state, next};

/// Draws numbers one after another.
#[derive(Drop)]
pub(crate) struct Draws {
    pub(crate) state: u32,
}

impl Draws {
    pub(crate) fn new(arg: u32) -> Draws
        ensures { result.state ≡ first_state arg }
    {
        Draws {
            state: arg % 2_147_483_648,
        }
    }

    /// A number below `n`.
    #[tactic(auto, unfolding(crate::specs::Draws::next, crate::specs::Draws::drawn))]
    pub(crate) fn draw(&mut self, n: u32) -> u32
        requires { 0 < n }
        ensures next { self.new.state ≡ next self.old.state }
        ensures drawn { result ≡ drawn n (next self.old.state) }
        ensures below { result < n }
    {
        let state = (1_103_515_245 * (self.state as u64) + 12_345) % 2_147_483_648;
        self.state = state as u32;
        self.state / 65_536 % n
    }
}
