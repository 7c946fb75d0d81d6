//! What a partition's history says at each entry: the state of each process after it, the process
//! that each core runs, the counts of the objects and the owners of the mutexes, and the instant of
//! each moment. The words for waits and notices are here too.
#![tactic(auto)]

mod counts;
mod instants;
mod kinds;
mod laws;
mod moments;
mod texts;
mod words;

pub use counts::{Counts, counts_of};
pub use instants::{Instant, WIDE_MOMENTS, limits_of_the_profile};
pub use kinds::{Kind, content_of, displayed_on, raised_of, value_of};
pub use laws::{columns_say_entries, moments_are_in_order, texts_are_read_back};
pub use moments::{
    Cell, Moment, is_process, is_same_process, moment_in, running_at, running_of, state_of,
};
pub use texts::{Part, put, put_all, put_number, put_xml};
pub use words::{id_part, notice_word, profile_number, put_object, put_wait};
