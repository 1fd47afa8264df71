//! What a refusal by shares tells, and when it is made.

ghost use Rattle.nf_denials.specs.Laws.{ActsAreTold, BeginsTellTheirBreak, ChunksTellNoShare, EndsTellTheirBreak, LinksTellTheirChain, OwnIsNotRefused, ReadsGoOn, RevokedIsRefused, UnreachedIsRefused, UnreachedIsTold, VersionsTellTheirCause};

/// Who is refused at a mount is let in by no chain of shares, and who is refused an act there is let do it by none. What is told is the
/// first link that is broken, with its first cause, of the chain of the first share that is received there; or that none is.
pub fn breaks_are_told()
    ensures reach { UnreachedIsTold }
    ensures acts { ActsAreTold }
{}

/// So is each request that is refused by shares: for a mount that its paths go by, or for an act that it needs, at a path or at a file of
/// whose versions something is asked.
pub fn begins_tell_their_break()
    ensures { BeginsTellTheirBreak }
{}

/// No request is refused so for a path in the caller's own root: who is known may do all that it needs there. Nor is one for the versions
/// of a file that is the caller's own.
pub fn own_is_not_refused()
    ensures { OwnIsNotRefused }
{}

/// Who asks by a link that is there, or was granted to store by one, is never told that there is no share: the link itself is one. So what
/// shares refuse them tells where its chain is broken.
pub fn links_tell_their_chain()
    ensures { LinksTellTheirChain }
{}

/// A path that goes by a mount on which nobody lets the caller in is refused for that, whatever its further names are; where chunks are to
/// become a file there, once the caller has that upload.
pub fn unreached_is_refused()
    ensures { UnreachedIsRefused }
{}

/// What is asked about versions is refused as `kind` for a folder, and as `not-found` where the caller neither owns the file nor has a mount
/// at it or above it, or where the file hasn't that version. Whether it is a folder or has that version, they alone are told who may do what
/// they ask.
pub fn versions_tell_their_cause()
    ensures { VersionsTellTheirCause }
{}

/// A body is refused that comes when its sender isn't let in any more, or may not do any more what it was granted.
pub fn revoked_is_refused()
    ensures { RevokedIsRefused }
{}

/// What is told then is the first broken link, too. The chunk of an upload, which is its user's own, is never refused so.
pub fn ends_tell_their_break()
    ensures stored { EndsTellTheirBreak }
    ensures chunks { ChunksTellNoShare }
{}

/// Whoever was granted a file is sent it, whatever became of the shares since.
pub fn reads_go_on()
    ensures { ReadsGoOn }
{}
