// What a call was handed to start threads with, to wait with, and to ask and tell.
use mt_ports::Gate;
use mt_rendezvous::{Crew, Lent};
use std::sync::Wait;
use waits::Waiter;

mod arrival;
mod starting;
mod visits;
mod waits;

pub(crate) use starting::{come_here, start};
pub(crate) use visits::core_of;
pub use visits::visit;

/// The runtime and the gate of a call. No field is public, and no call hands one out. Only `caller/waits.rt` reads the runtime:
/// it waits at the two barriers, and for threads. Only this module and those below it use the crew, to ask the gate and to tell
/// it. So a function without a runtime of its own, which has a caller, waits by the calls of `caller/waits.rt` alone. No type
/// keeps it from making a second caller, over a runtime and a gate of its own making.
#[derive(Drop)]
pub struct Caller<R, G> {
    waiter: Waiter<R>,
    crew: Crew<G>,
}

impl<'a, R: Wait, G: Gate> Caller<&'a R, Lent<'a, G>> {
    /// The caller with this runtime and this gate.
    pub fn of(rt: &'a R, gate: &'a G) -> Caller<&'a R, Lent<'a, G>> {
        Caller {
            waiter: Waiter::of(rt),
            crew: Crew::of(Lent::of(gate)),
        }
    }
}
