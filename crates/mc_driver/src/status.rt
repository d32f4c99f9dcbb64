// The statuses of the answers that are no report.

/// The command is done.
pub const DONE: u8 = 0;

/// The words are no command.
pub const WORDS: u8 = 1;

/// The source has a fault.
pub const BAD_SOURCE: u8 = 2;

/// The script is refused.
pub const BAD_SCRIPT: u8 = 3;

/// The image is refused.
pub const BAD_IMAGE: u8 = 4;

/// The settings are refused.
pub const BAD_SETTINGS: u8 = 10;

/// A load or a print failed.
pub const FAILED: u8 = 11;

/// Want of memory.
pub const NO_MEMORY: u8 = 12;

/// The source has no fault, and its size is greater than the limit.
pub const TOO_LARGE: u8 = 13;

/// A file has more bytes than its limit.
pub const TOO_LONG: u8 = 14;

/// The form of the input is not built yet.
pub const NOT_YET: u8 = 15;
