// The saved connection's layout, each size and place once (specs/Saved.antt, docs/SAVED.md): the count, the link part, the
// records.
pub const COUNT_PLACE: usize = 0;

pub const COUNT: usize = 1;

pub const LINK: usize = 520;

pub const RECORDS: usize = COUNT + LINK;

pub const RECORD: usize = 80;

// A record: its head, then room for the configuration.
pub const HEAD: usize = 16;

pub const CONFIG: usize = 64;

// Places in a head.
pub const SEID: usize = 0;

pub const STATE: usize = 1;

pub const CHANNEL: usize = 2;

pub const FAR: usize = 3;

pub const DELAY_MARK: usize = 4;

pub const DELAY_HIGH: usize = 5;

pub const DELAY_LOW: usize = 6;

pub const CONFIG_LENGTH: usize = 7;

pub const UNUSED: usize = 8;

// Places in the link part, where the gathering lies.
pub const MARK: usize = 0;

pub const LABEL: usize = 1;

pub const MTYPE: usize = 2;

pub const SIGNAL: usize = 3;

pub const PACKETS: usize = 4;

pub const PARTS: usize = 5;

pub const LENGTH_HIGH: usize = 6;

pub const LENGTH_LOW: usize = 7;

pub const PAYLOAD: usize = 8;

// The place of the gathering's mark in the whole area.
pub const LINK_MARK: usize = COUNT + MARK;

// A book has at most so many endpoints; what a connection over that many takes.
pub const ENDPOINTS: usize = 16;

pub const LONGEST: usize = RECORDS + ENDPOINTS * RECORD;
