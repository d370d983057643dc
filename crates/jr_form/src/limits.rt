// The limits of a journal, and what it begins with.

pub(crate) const MARK: &[u8] = b"BKBURST1";

/// How many items a journal has at most.
pub(crate) const MAX_ITEMS: u32 = 5_120;

/// How many bytes one file has at most.
pub(crate) const MAX_FILE: usize = 4_194_304;

/// How many bytes the files of a save have together at most.
pub(crate) const MAX_FILES: usize = 67_108_864;

/// How many bytes a journal has at most: 12 + 5,120 * 262 + 67,108,864.
pub(crate) const MAX_JOURNAL: usize = 68_450_316;
