//! Steps of generated events that follow one another.

ghost use Rattle.std.specs.Prelude.{◌≡◌};
ghost use Rattle.history_events.specs.GeneratedEvents.{step_event, step_after};

use script_events::{Event, InterfaceEvent};

/// The steps by which stream 5 of link 0 and interface 0 are stopped, halted and set up again, in their order.
#[derive(Clone, Copy, PartialEq, Eq)]
pub(crate) enum Step {
    Stop,
    Halt,
    Establish,
    Lock,
    Report,
    Start,
}

// The event of an interface's step.
fn of_interface(event: InterfaceEvent) -> Event
    ensures { result ≡ Event.Interface event }
{
    Event::Interface { event }
}

impl Step {
    /// The event that the step is.
    pub(crate) fn event(self) -> Event
        ensures { result ≡ step_event self }
    {
        let (line, stream, interface, lose) = (0, 5, 0, None);
        match self {
            Step::Stop => Event::Stop { line, stream, lose },
            Step::Halt => of_interface(InterfaceEvent::Halt { interface, lose }),
            Step::Establish => Event::Establish { line, stream, lose },
            Step::Lock => of_interface(InterfaceEvent::Lock { interface, lose }),
            Step::Report => of_interface(InterfaceEvent::Report { interface, lose }),
            Step::Start => of_interface(InterfaceEvent::Start { interface, lose }),
        }
    }

    /// The step after it.
    pub(crate) fn after(self) -> Option<Step>
        ensures { result ≡ step_after self }
    {
        match self {
            Step::Stop => Some(Step::Halt),
            Step::Halt => Some(Step::Establish),
            Step::Establish => Some(Step::Lock),
            Step::Lock => Some(Step::Report),
            Step::Report => Some(Step::Start),
            Step::Start => None,
        }
    }
}
