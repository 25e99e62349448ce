//! The modules that are out, and from when to when.
ghost use Rattle.std.specs.Prelude.{◌≡◌, map, IfOk};
ghost use Rattle.tp_chart.specs.Scenes.{ended, is_out, is_out_in};

use std::alloc::{AllocError, Global};
use tp_base::Tick;

/// Why a module is out: it jammed, was put off, jammed with a copy that had no way on, or was out where the log begins.
#[derive(Clone, Copy, PartialEq, Eq, Debug)]
pub enum OutKind {
    Jam,
    Off,
    Stuck,
    Saved,
}

/// A time in which a module is out. `number` is the module's place in the machine's list; without an end it is out still.
#[derive(Clone, Copy, PartialEq, Eq, Debug)]
pub struct OutSpan {
    pub number: u16,
    pub kind: OutKind,
    pub begin: Tick,
    pub end: Option<Tick>,
}

fn is_out_in(number: u16, outage: &OutSpan) -> bool
    ensures { result ≡ is_out_in number outage.now }
{
    outage.number == number && outage.end.is_none()
}

pub(crate) fn is_out(number: u16, outages: &[OutSpan]) -> bool
    ensures { result ≡ is_out number outages.now }
{
    outages.iter().any(|outage| is_out_in(number, outage))
}

/// The outage, ended at the moment if it is one of the module that lasts.
fn ended(number: u16, moment: Tick, outage: &OutSpan) -> OutSpan
    ensures { result ≡ ended number moment outage.now }
{
    if is_out_in(number, outage) {
        OutSpan {
            number,
            kind: outage.kind,
            begin: outage.begin,
            end: Some(moment),
        }
    } else {
        *outage
    }
}

/// The outages, those of the module ended at the moment.
pub(crate) fn all_ended(
    alloc: Global,
    number: u16,
    moment: Tick,
    outages: &[OutSpan],
) -> Result<Vec<OutSpan>, AllocError>
    ensures { IfOk result (λ v. v.items ≡ map (ended number moment) outages.now) }
{
    outages
        .iter()
        .map(|outage| ended(number, moment, outage))
        .collect(alloc)
}
