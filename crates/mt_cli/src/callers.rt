use mt_ports::Gate;
use mt_rendezvous::Lent;
use std::sync::Wait;

/// What the commands that start threads have of the runtime and of the gate: the caller of updates, and that of jobs.
#[derive(Drop)]
pub struct Callers<R, G> {
    pub(crate) updates: mt_rendezvous::Caller<R, G>,
    pub(crate) jobs: mt_private::Caller<R, G>,
}

impl<'a, R: Wait, G: Gate> Callers<&'a R, Lent<'a, G>> {
    /// Those with this runtime and this gate.
    pub fn of(rt: &'a R, gate: &'a G) -> Callers<&'a R, Lent<'a, G>> {
        Callers {
            updates: mt_rendezvous::Caller::of(rt, gate),
            jobs: mt_private::Caller::of(rt, gate),
        }
    }
}
