//! A number for each state of a sheet.
ghost use Rattle.std.specs.Prelude.{◌≡◌, ◌<◌, ◌≤◌, ◌*◌, ◌+◌};
ghost use Rattle.tp_routes.specs.Numbers.{number_of, state_at, side_bit, done_bit};

use tp_machine::{Face, LocId, State};

/// The number of a state: eight for each location.
pub fn number_of(state: State) -> u32
    ensures number { result ≡ number_of state }
    ensures within { result < state.loc.0 * 8 + 8 }
{
    u32::from(state.loc.0) * 8
        + side_bit(state.up) * 4
        + done_bit(state.front_done) * 2
        + done_bit(state.back_done)
}

fn side_bit(side: Face) -> u32
    ensures bit { result ≡ side_bit side }
    ensures within { result ≤ 1 }
{
    match side {
        Face::Front => 0,
        Face::Back => 1,
    }
}

fn done_bit(done: bool) -> u32
    ensures bit { result ≡ done_bit done }
    ensures within { result ≤ 1 }
{
    if done { 1 } else { 0 }
}

/// The state of a number: the eight states of a location stand side by side. Each state at one of
/// the first locations is the state of one number below eight times as many.
pub fn state_at(number: u32) -> State
    requires { number < 2048 }
    ensures { result ≡ state_at number }
{
    State {
        loc: LocId((number / 8) as u16),
        up: if number / 4 % 2 == 0 {
            Face::Front
        } else {
            Face::Back
        },
        front_done: number / 2 % 2 == 1,
        back_done: number % 2 == 1,
    }
}
