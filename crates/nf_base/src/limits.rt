//! The limits of the product. Each stands here alone: clauses, definitions, proofs and code cite it by its name.

/// The most bytes of a name.
pub const MAX_NAME: usize = 240;

/// The most names of a path, and so the most folders above a node.
pub const MAX_DEPTH: u32 = 64;

/// The most names that may be taken where a free one is looked for.
pub const MAX_TAKEN: usize = 1_000_000;

/// The most pieces of one content.
pub const MAX_PIECES: usize = 10_000;

/// The most pieces of all nodes and versions together. One that two of them have counts twice.
pub const MAX_STORED_PIECES: u32 = 1_048_576;

/// The most nodes, of all users together.
pub const MAX_NODES: usize = 262_144;

/// The most users.
pub const MAX_USERS: usize = 4_096;

/// The most groups.
pub const MAX_GROUPS: usize = 4_096;

/// The most tokens, of all users together.
pub const MAX_TOKENS: usize = 16_384;

/// The most members, of all groups together.
pub const MAX_MEMBERS: usize = 65_536;

/// The most shares, of all users together.
pub const MAX_SHARES: usize = 65_536;

/// The most shares of a chain, from its first to the one that is received.
pub const MAX_CHAIN: usize = 16;

/// The most mounts, of all users together, with those that were left.
pub const MAX_MOUNTS: usize = 262_144;

/// The most versions, of all files together.
pub const MAX_VERSIONS: usize = 262_144;

/// The most bytes that a user's quota may allow: 1 TiB.
pub const MAX_QUOTA: u64 = 1_099_511_627_776;

/// The most entries of a run's history.
pub const MAX_ENTRIES: usize = 262_144;

/// The most seats of a run, with those that were joined into others. A seat serves one connection at a time.
pub const MAX_SEATS: usize = 64;

/// The most messages that are answered in one session.
pub const MAX_MESSAGES: usize = 10_000;

/// The most bytes of a message's head, with the empty line at its end.
pub const MAX_HEAD: usize = 8_192;

/// The most fields of a message's head.
pub const MAX_FIELDS: usize = 64;

/// The most bytes of a message's body, and so of a piece.
pub const MAX_BODY: u64 = 16_777_216;

/// The most bytes of the body of an OCS request, which may have parameters in it.
pub const MAX_OCS_BODY: usize = 8_192;
