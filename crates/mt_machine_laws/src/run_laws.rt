mod barriers;
mod coming_and_going;
mod kept;
mod runs;
mod settled;
mod starts;
mod updates;

pub use barriers::{barriers_count, barriers_hold};
pub use coming_and_going::{
    comers_and_goers_stay_fresh, goers_keep_words, goers_stay_quiet, newcomers_stay_quiet,
};
pub use kept::{
    accesses_keep_sound, events_keep, flags_stay, lines_are_low, orders_hold, stays_coherent,
    stays_sound, steps_keep_now, write_backs_have_places,
};
pub use runs::{led_is_reached, led_is_run, reached_is_run};
pub use settled::{
    held_after_release, no_buffers_at_pass, nothing_is_stale, settled_after_each_release,
};
pub use starts::{
    eras_fit, flagged_start_is_quiet, reached_is_quiet, snooping_stays_quiet, start_is_quiet,
    updated_is_quiet,
};
pub use updates::{
    broadcast_update, cancelled_broadcast, cancelled_update, count_of_steps, led_cancelled,
    led_ends, led_released, led_to_second_barrier, led_update, takes_broadcast, updated_words,
    whole_update,
};
