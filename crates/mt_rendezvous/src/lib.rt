//! The update of the range registers on threads: processors that meet at two barriers, over atomic words.
#![tactic(auto)]

mod attendance;
mod broadcast;
mod caller;
mod crew;
mod gather;
mod pauses;
mod shared;
mod station;
mod threads;
mod view;

pub use broadcast::call_and_take;
pub use caller::{Caller, attend};
pub use crew::{Coordinator, Crew, Heard, Lent, OfProcessor, Refusal, Started, Unstarted};
pub use gather::disband;
pub use pauses::Pauses;
pub use station::{Attendee, Outcome, Pass, Root, Station};
pub use threads::{update, update_with};
pub use view::{Added, Held, Key, Start, View};
