//! What holds of farms. The call does nothing: its contract is the law.

ghost use Rattle.tp_farm.specs.Farms.{FarmsPart};

use tp_stream::Teller;

/// Whatever lines a farm answers, each of its machines answers the events that it was sent, one after another, and the lines with
/// its number before them are what it told, where the tellers tell whole lines.
pub fn farms_part<T: Teller>()
    ensures { FarmsPart T.tells T.probes }
{}
