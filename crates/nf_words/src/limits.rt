//! The limits of uploads.

/// The most uploads that a user may have open at once.
pub const MAX_UPLOADS: usize = 64;

/// The most bytes that the chunks of all uploads of a user may have together: 1 GiB.
pub const MAX_PENDING: u64 = 1_073_741_824;

/// After so many seconds without a chunk an upload is dropped by the next sweep: a day.
pub const MAX_IDLE: u64 = 86_400;
