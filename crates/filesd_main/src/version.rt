//! The version, in the one place where it stands.

/// What the usage, the log, `bin/filesd --version` and `release/PROVENANCE` tell. `tools/version` reads this line.
pub const VERSION: &str = "0.1.0";
