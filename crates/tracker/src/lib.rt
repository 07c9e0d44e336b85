// The calls and what they answer with: all that a caller of the tracking core needs beside the types of `rules`. Each call is over the device
// record by value and lent marks, and stands in a crate of its own kind.
#![tactic(auto)]

pub use calls::{
    Batched, Changed, Posted, Received, Started, StateSet, Taken, WriteRecord, Written,
};
pub use controller_state::set_state;
pub use fresh::fresh;
pub use migration_send::{resume, suspend};
pub use queue::{make_queue, post, take};
pub use track_receive::receive;
pub use track_send::{start, stop};
pub use writes::{batch, batch_of, write};
