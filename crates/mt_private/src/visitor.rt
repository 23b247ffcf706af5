use crate::job::JobAnswers;
use crate::visiting::{Visited, YardPass};
use mt_core::Core;

/// A guest on its way through a yard: a core with its processor alone, its pass, the place of its answers, and how its
/// visit ended, which is Cancelled until then.
#[derive(Drop)]
pub struct Visitor {
    pub core: Core,
    pub pass: YardPass,
    pub told: JobAnswers,
    pub visited: Visited,
}
