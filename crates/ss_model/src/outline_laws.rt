// A law of what refusals read, the contract of a function that does nothing.
ghost use Rattle.std.specs.Prelude.{◌≡◌, List};
ghost use Rattle.ss_catalog.specs.declared.event.Event.{Event};
ghost use Rattle.ss_model.specs.KeptAlike.{AllKeptAlike};
ghost use Rattle.ss_model.specs.Refusals.{refuses};
ghost use Rattle.ss_model.specs.State.{Stream};

/// An event is refused alike in states of which a store keeps the same in memory, whatever the figures of their windows.
pub fn refusals_read_outlines()
    ensures { (streams others : List Stream) (event : Event) → AllKeptAlike streams others →
        refuses streams event ≡ refuses others event }
{}
