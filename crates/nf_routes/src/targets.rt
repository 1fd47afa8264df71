//! The path of a target and its segments.

ghost use Rattle.std.specs.Prelude.{◌≡◌, ◌<◌, IfOk, IfSome, codes, length, map, option_and_then, option_copied, position};
ghost use Rattle.std.specs.List.{before_first, slice_split};
ghost use Rattle.percent_encoding.specs.Percent.{percent_decode};
ghost use Rattle.nf_routes.specs.Targets.{behind, behind_files as in_files, behind_trashbin as in_trashbin, behind_uploads as in_uploads, behind_versions as in_versions, decoded_segments, from_slash, is_ocs as begins_with_ocs, is_question, is_slash, path_in, query_of, is_restore_of, restores, restores_version, segments_of, share_segment as segment_of_share, target_path, trash_segments as segments_of_trash, upload_segments as segments_of_upload, user_segment as segment_of_user, version_segments as segments_of_version, whole_path, without_slash};

use std::alloc::{AllocError, Global};

const FILES: &[u8] = b"/remote.php/dav/files/";

const PUBLIC: &[u8] = b"/public.php/dav/files/";

const SHARES: &[u8] = b"/ocs/v2.php/apps/files_sharing/api/v1/shares/";

const USERS: &[u8] = b"/ocs/v2.php/cloud/users/";

const TRASHBIN: &[u8] = b"/remote.php/dav/trashbin/";

const VERSIONS: &[u8] = b"/remote.php/dav/versions/";

const UPLOADS: &[u8] = b"/remote.php/dav/uploads/";

const OCS: &[u8] = b"/ocs/v2.php/";

/// The segments of the path of a file, the name of a user or the token of a link first; none of any other target.
/// They are decoded, so that a segment may hold any byte, a slash too.
pub fn segments(alloc: Global, target: &[u8]) -> Result<Vec<Vec<u8>>, AllocError>
    ensures { IfOk result (λ segments. map (λ segment. segment.items) segments.items ≡ segments_of target.now) }
{
    match behind_files(target) {
        Some(rest) => decoded_pieces(alloc, rest),
        None => Ok(Vec::new(alloc)),
    }
}

/// The segments of a path in the trash bin, decoded: the name of a user, a word, and the number of an item; none of any other target.
pub fn trash_segments(alloc: Global, target: &[u8]) -> Result<Vec<Vec<u8>>, AllocError>
    ensures { IfOk result (λ segments. map (λ segment. segment.items) segments.items ≡ segments_of_trash target.now) }
{
    match behind_trashbin(target) {
        Some(rest) => decoded_pieces(alloc, rest),
        None => Ok(Vec::new(alloc)),
    }
}

/// The segments of a path to versions, decoded: the name of a user, a word, the number of a file, and a moment; none of any other target.
pub fn version_segments(alloc: Global, target: &[u8]) -> Result<Vec<Vec<u8>>, AllocError>
    ensures { IfOk result (λ segments. map (λ segment. segment.items) segments.items ≡ segments_of_version target.now) }
{
    match behind_versions(target) {
        Some(rest) => decoded_pieces(alloc, rest),
        None => Ok(Vec::new(alloc)),
    }
}

/// The segments of a path to uploads, decoded: the names of a user, of an upload and of a chunk; none of any other target.
pub fn upload_segments(alloc: Global, target: &[u8]) -> Result<Vec<Vec<u8>>, AllocError>
    ensures { IfOk result (λ segments. map (λ segment. segment.items) segments.items ≡ segments_of_upload target.now) }
{
    match behind_uploads(target) {
        Some(rest) => decoded_pieces(alloc, rest),
        None => Ok(Vec::new(alloc)),
    }
}

/// Whether a target names what items of that user's come back to: `/remote.php/dav/trashbin/USER/restore/ANY`.
pub fn restores(alloc: Global, user: &[u8], target: &[u8]) -> Result<bool, AllocError>
    ensures { IfOk result (λ is. is ≡ restores user.now target.now) }
{
    match behind_trashbin(target) {
        Some(rest) => comes_back(alloc, user, rest),
        None => Ok(false),
    }
}

/// Whether it names what versions come back to by that user: `/remote.php/dav/versions/USER/restore/ANY`.
pub fn restores_version(alloc: Global, user: &[u8], target: &[u8]) -> Result<bool, AllocError>
    ensures { IfOk result (λ is. is ≡ restores_version user.now target.now) }
{
    match behind_versions(target) {
        Some(rest) => comes_back(alloc, user, rest),
        None => Ok(false),
    }
}

// Whether what is behind those words, cut as it was sent, is where something of that user's comes back.
fn comes_back(alloc: Global, user: &[u8], rest: &[u8]) -> Result<bool, AllocError>
    ensures { IfOk result (λ is. is ≡ is_restore_of user.now (slice_split is_slash rest.now)) }
{
    let pieces = pieces(alloc, rest)?;
    is_restore_of(alloc, user, &pieces)
}

fn is_restore_of(alloc: Global, user: &[u8], segments: &[&[u8]]) -> Result<bool, AllocError>
    ensures { IfOk result (λ is. is ≡ is_restore_of user.now (map (λ segment. segment.now) segments.now)) }
{
    match segments {
        [name, word, _] if *word == b"restore".as_slice() => {
            Ok(decoded(alloc, name)?.as_slice() == user)
        }
        _ => Ok(false),
    }
}

// The pieces between the slashes, each decoded then.
fn decoded_pieces(alloc: Global, path: &[u8]) -> Result<Vec<Vec<u8>>, AllocError>
    ensures { IfOk result (λ segments. map (λ segment. segment.items) segments.items ≡ decoded_segments path.now) }
{
    let mut segments = Vec::new(alloc);
    let pieces = pieces(alloc, path)?;
    for piece in &pieces {
        segments.push(decoded(alloc, piece)?)?;
    }
    Ok(segments)
}

/// What stands for the number of a share in the path of a target, decoded; nothing where no share is named.
pub fn share_segment(alloc: Global, target: &[u8]) -> Result<Vec<u8>, AllocError>
    ensures { IfOk result (λ segment. segment.items ≡ segment_of_share target.now) }
{
    match behind_shares(target) {
        Some(segment) => decoded(alloc, segment),
        None => Ok(Vec::new(alloc)),
    }
}

/// What stands for the name of a user in the path of a target, decoded; nothing where no user is named.
pub fn user_segment(alloc: Global, target: &[u8]) -> Result<Vec<u8>, AllocError>
    ensures { IfOk result (λ segment. segment.items ≡ segment_of_user target.now) }
{
    match behind_users(target) {
        Some(rest) => decoded(alloc, before_slash(rest)),
        None => Ok(Vec::new(alloc)),
    }
}

/// The query of a target.
pub fn query(target: &[u8]) -> &[u8]
    ensures { result.now ≡ query_of target.now }
{
    match first_question(target) {
        Some(at) => &target[at + 1..],
        None => &[],
    }
}

/// Whether the path of a target, as it was sent, is in the part of the site that speaks of shares and people.
pub fn is_ocs(target: &[u8]) -> bool
    ensures { result ≡ begins_with_ocs target.now }
{
    match whole_path(target) {
        Some(path) => path.strip_prefix(OCS).is_some(),
        None => false,
    }
}

// What is behind the words of the two mounts where files are.
fn behind_files(target: &[u8]) -> Option<&[u8]>
    ensures { option_copied result ≡ option_and_then in_files (target_path target.now) }
{
    let path = target_path(target)?;
    match path.strip_prefix(FILES) {
        Some(rest) => Some(rest),
        None => path.strip_prefix(PUBLIC),
    }
}

// What is behind the words of the mount of shares.
fn behind_shares(target: &[u8]) -> Option<&[u8]>
    ensures { option_copied result ≡ option_and_then (behind (codes "/ocs/v2.php/apps/files_sharing/api/v1/shares/")) (target_path target.now) }
{
    target_path(target)?.strip_prefix(SHARES)
}

// What is behind the words of the mount of users.
fn behind_users(target: &[u8]) -> Option<&[u8]>
    ensures { option_copied result ≡ option_and_then (behind (codes "/ocs/v2.php/cloud/users/")) (target_path target.now) }
{
    target_path(target)?.strip_prefix(USERS)
}

// What is behind the words of the trash bin.
fn behind_trashbin(target: &[u8]) -> Option<&[u8]>
    ensures { option_copied result ≡ in_trashbin target.now }
{
    target_path(target)?.strip_prefix(TRASHBIN)
}

// What is behind the words of the versions.
fn behind_versions(target: &[u8]) -> Option<&[u8]>
    ensures { option_copied result ≡ in_versions target.now }
{
    target_path(target)?.strip_prefix(VERSIONS)
}

// What is behind the words of the uploads.
fn behind_uploads(target: &[u8]) -> Option<&[u8]>
    ensures { option_copied result ≡ in_uploads target.now }
{
    target_path(target)?.strip_prefix(UPLOADS)
}

fn before_slash(path: &[u8]) -> &[u8]
    ensures { result.now ≡ before_first is_slash path.now }
{
    match first_slash(path) {
        Some(at) => &path[..at],
        None => path,
    }
}

/// A segment without its escapes; a `%` without two hexadecimal digits stays.
pub(crate) fn decoded(alloc: Global, segment: &[u8]) -> Result<Vec<u8>, AllocError>
    ensures { IfOk result (λ bytes. bytes.items ≡ percent_decode segment.now) }
{
    let mut bytes = Vec::new(alloc);
    percent_encoding::percent_decode(segment).append_to(&mut bytes)?;
    Ok(bytes)
}

/// The pieces between the slashes, as they were sent.
pub fn pieces<'a>(alloc: Global, bytes: &'a [u8]) -> Result<Vec<&'a [u8]>, AllocError>
    ensures { IfOk result (λ pieces. map (λ piece. piece.now) pieces.items ≡ slice_split is_slash bytes.entry.now) }
{
    bytes.split(|byte| *byte == b'/').collect(alloc)
}

/// The path of a target, without its query, a scheme and a host, and one slash at its end.
pub(crate) fn target_path(target: &[u8]) -> Option<&[u8]>
    ensures { option_copied result ≡ target_path target.now }
{
    Some(without_slash(whole_path(target)?))
}

// The path of a target as it was sent.
fn whole_path(target: &[u8]) -> Option<&[u8]>
    ensures { option_copied result ≡ whole_path target.now }
{
    path_in(before_query(target))
}

fn before_query(target: &[u8]) -> &[u8]
    ensures { result.now ≡ before_first is_question target.now }
{
    match first_question(target) {
        Some(at) => &target[..at],
        None => target,
    }
}

fn first_question(bytes: &[u8]) -> Option<usize>
    ensures value { result ≡ position is_question bytes.now }
    ensures within { IfSome result (λ at. at < length bytes.now) }
{
    bytes.iter().position(|byte| *byte == b'?')
}

// What is behind the scheme and the host that may stand before a path.
fn path_in(target: &[u8]) -> Option<&[u8]>
    ensures { option_copied result ≡ path_in target.now }
{
    let after_scheme = match target.strip_prefix(b"http://".as_slice()) {
        Some(rest) => Some(rest),
        None => target.strip_prefix(b"https://".as_slice()),
    };
    match after_scheme {
        Some(rest) => from_slash(rest),
        None => Some(target),
    }
}

fn from_slash(bytes: &[u8]) -> Option<&[u8]>
    ensures { option_copied result ≡ from_slash bytes.now }
{
    let at = first_slash(bytes)?;
    Some(&bytes[at..])
}

fn first_slash(bytes: &[u8]) -> Option<usize>
    ensures value { result ≡ position is_slash bytes.now }
    ensures within { IfSome result (λ at. at < length bytes.now) }
{
    bytes.iter().position(|byte| *byte == b'/')
}

fn without_slash(path: &[u8]) -> &[u8]
    ensures { result.now ≡ without_slash path.now }
{
    match path.strip_suffix(b"/".as_slice()) {
        Some(front) => front,
        None => path,
    }
}
