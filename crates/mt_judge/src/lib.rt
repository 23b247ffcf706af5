//! Judges a procedure that changes memory type registers: what its steps leave wrong, on which processor and where.
//!
//! A case has a list of steps for each processor. A step does what the machine's event does, whether or not it is due.
#![tactic(auto)]

mod json;
mod judging;
mod one_run;
mod picture;
mod program;
mod telling;
mod text;
mod transcript;

pub use judging::{
    Explored, Host, OnStderr, Quiet, ToldSurvival, Verdict, explore, judge, judge_all,
};
pub use mt_case::{Ask, Input, Part, Reason, Trouble, read_input};
pub use mt_list_machine::Cpu;
pub use mt_procedure::{
    Case, ListPlace, Mode, Move, Outcome, Procedure, ProcedureStep, State, Turn, advance,
};
pub use mt_search::{
    Aim, Fault, Found, Kept, Node, Origin, Search, Store, Wrong, fault_of,
    has_wrong_if_a_sense_holds, wrongs_of,
};
pub use one_run::judge_run;
pub use picture::{Held, Lane, Row, rows_follow_the_run};
pub use program::{program_status, run_judge};
pub use transcript::{Arrivals, Hindrance, Told, ToldSpeculation, ToldStep, Transcript};
