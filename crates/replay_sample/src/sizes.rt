// The buffers of the sample's calls: a context of the wider spacing, the routes of four slots, a log, outcomes, hubs, a list and rings.
pub const CONTEXT_ROOM: usize = 2112;

pub const ROUTES_ROOM: usize = 160;

pub const LOG_ROOM: usize = 64;

pub const OUTCOMES_ROOM: usize = 64;

pub const HUBS_ROOM: usize = 16;

pub const LIST_ROOM: usize = 256;

pub const RINGS_ROOM: usize = 65;
