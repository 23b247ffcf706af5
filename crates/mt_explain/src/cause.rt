use crate::{Decider, Misfit};

/// What a map and the registers make of a page, if the two don't fit, and the registers that give the page its type.
#[derive(Drop)]
pub struct Cause {
    pub misfit: Misfit,
    pub decider: Decider,
}
