//! What answers events.

ghost use Rattle.std.specs.Prelude.{◌≡◌, ◌+◌, ◌<◌, ◌++◌, ℕ, List, [], IfOk, OnOk, OnErr};
ghost use Rattle.tp_script.specs.Printed.{IsEchoed};
ghost use Rattle.tp_script.specs.declared.event.Event.{Event};
ghost use Rattle.tp_stream.specs.Tellers.{most_events};
ghost use Rattle.tp_stream.specs.declared.probe.Probe.{Probe};

use crate::probe::Probe;
use tp_base::Memory;
use tp_script::Event;

/// What answers events, each with a text, which it keeps until it is cleared. It answers at most 100,000,000 events. Before
/// an event it can be asked what the event's job would get.
pub trait Teller {
    // all that answers depend on, but for the text that is kept
    ghost State: { Type 0 };

    ghost state: { Self → State };

    // the text that is kept
    ghost text: { Self → List ℕ };

    // how many events it has answered
    ghost answered: { Self → ℕ };

    // an event leads from the one state to the other, with this text
    ghost tells: { State → Event → List ℕ → State → Type 0 };

    // a probe of the event may answer this in the state
    ghost probes: { State → Event → Probe → Type 0 };

    /// What the event's job would get in the state as it stands. Nothing changes that answers and probes depend on.
    fn probe(&mut self, event: &Event) -> Result<Probe, Memory>
        requires echoed { IsEchoed event.now }
        ensures probed { IfOk result (probes (state self.old) event.now) }
        ensures state_stays { state self.new ≡ state self.old }
        ensures text_stays { text self.new ≡ text self.old }
        ensures count_stays { answered self.new ≡ answered self.old };

    /// Answers one event, and appends the text. After `Memory` all is as before.
    fn event(&mut self, event: &Event) -> Result<(), Memory>
        requires few { answered self.old < most_events }
        requires echoed { IsEchoed event.now }
        ensures told { OnOk result ((told : List ℕ)
            × tells (state self.old) event.now told (state self.new)
            × (text self.new ≡ text self.old ++ told)) }
        ensures counted { OnOk result (answered self.new ≡ answered self.old + 1) }
        ensures state_stays { OnErr result (state self.new ≡ state self.old) }
        ensures text_stays { OnErr result (text self.new ≡ text self.old) }
        ensures count_stays { OnErr result (answered self.new ≡ answered self.old) };

    /// The texts of the events since it was cleared.
    fn text(&self) -> &[u8]
        ensures { result.now ≡ text self.now };

    /// Empties the text alone.
    fn clear_text(&mut self)
        ensures cleared { text self.new ≡ [] }
        ensures stays { state self.new ≡ state self.old }
        ensures counted { answered self.new ≡ answered self.old };

    /// How many events it has answered.
    fn events(&self) -> u32
        ensures { result ≡ answered self.now };
}
