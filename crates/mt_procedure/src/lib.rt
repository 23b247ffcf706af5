//! Lists of steps that change memory type registers, one for each processor, and runs of them: what a step does, and which step the
//! manual's procedure has due.
#![tactic(auto)]

mod due;
mod event;
mod moves;
mod order;
mod speculation;
mod step;
mod turn;

pub use due::{due_at, has_arrived, has_arrived_again};
pub use moves::{Case, Move, Outcome, Procedure, State, advance, aside, phase_in};
pub use order::{is_running, sum};
pub use speculation::{PAGE_LINES, is_step, take, turns};
pub use step::{ListPlace, PLAIN, ProcedureStep};
pub use turn::{Mode, Turn};
