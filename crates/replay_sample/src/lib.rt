// What the replays of the original's sample share: numbers from standard input, the frame of a replay, and what a call left on standard output.
#![tactic(auto)]

mod frame;
mod read;
mod show;
mod sizes;

pub use frame::replay;
pub use read::{byte, bytes, count, elements, list, list_of, next, read_record, word, words};
pub use show::left;
pub use sizes::{
    CONTEXT_ROOM, HUBS_ROOM, LIST_ROOM, LOG_ROOM, OUTCOMES_ROOM, RINGS_ROOM, ROUTES_ROOM,
};
