// What every check that goes by a table of rules answers where none of them refuses.
#![tactic(auto)]

// The answer where no rule refuses; else it is the number of the first that does.
pub const PASSED: u32 = 0;

// The refusals by name; face/face.txt has a sentence for each, and tools/face holds the numbers to it.

pub const LIST_LENGTH: u32 = 1;

pub const LIST_RECORD: u32 = 2;

pub const NO_START: u32 = 3;

pub const FLOW_RECORD: u32 = 4;

pub const OTHER_START: u32 = 5;

pub const TOO_LONG: u32 = 6;

pub const BOUND: u32 = 7;

pub const TABLE_LISTS: u32 = 8;

pub const SPLIT_RECORD: u32 = 9;

pub const WRONG_ROW: u32 = 10;

pub const WRONG_UNION: u32 = 11;

pub const NO_START_SPLIT: u32 = 12;

pub const NOT_CLOSED: u32 = 13;

pub const NO_SPLIT: u32 = 14;

pub const NO_ROOM: u32 = 15;

pub const TOO_MANY: u32 = 16;

pub const LENT_LISTS: u32 = 17;

pub const SEGMENT: u32 = 18;

pub const BAD_TEXT: u32 = 19;

pub const TOO_DEEP: u32 = 20;

pub const TOO_BIG: u32 = 21;

pub const CERTIFICATE: u32 = 22;

pub const MACHINE: u32 = 24;

pub const PLACE: u32 = 25;

pub const NOT_DUE: u32 = 26;

pub const OTHER_LIST: u32 = 27;

pub const LIST_ROOM: u32 = 28;
