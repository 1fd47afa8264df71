//! The mounts of the site, and the routes behind them.

ghost use Rattle.std.specs.Prelude.{◌≡◌, IfOk, OnOk, map};
ghost use Rattle.nf_routes.specs.Mounts.{chunk_route, mount_of, route_below, route_of, share_route, trash_route, upload_route, user_route, version_route, words};
ghost use Rattle.nf_routes.specs.Rows.{routes, with_dav, with_more, with_ocs, with_words};

use crate::targets::{decoded, pieces, target_path};
use matchit::{InsertError, Router};
use nf_words::Route;
use percent_encoding::{CONTROLS, percent_encode};
use std::alloc::{AllocError, Global};
use std::marker::Model;

// A part of the site: some fixed words, and what stands behind them.
#[derive(Clone, Copy)]
enum Mount {
    Files,
    Public,
    Uploads,
    Trashbin,
    Versions,
    Shares,
    Share,
    Users,
    User,
    Groups,
}

/// The routes of the site, for looking up the paths of targets.
#[derive(Drop)]
pub struct Routes {
    router: Router<Mount>,
}

impl Model for Routes {
    ghost use Rattle.std.specs.Prelude.{◌≡◌};
    ghost use Rattle.matchit.specs.Router.{rename};
    ghost use Rattle.nf_routes.specs.Rows.{table};

    ghost Value = { Unit {0} };

    ghost view = { λ _. tt };

    ghost invariant = { λ routes. rename (λ route. route.value) routes.router ≡ table };
}

impl Routes {
    /// All routes.
    pub fn new(alloc: Global) -> Result<Routes, AllocError> {
        match router(alloc) {
            Ok(router) => Ok(Routes { router }),
            // No route is in conflict with another.
            Err(_) => Err(AllocError),
        }
    }

    /// The route that a target names.
    pub fn find(&self, alloc: Global, target: &[u8]) -> Result<Option<Route>, AllocError>
        ensures { IfOk result (λ route. route ≡ route_of target.now) }
    {
        let Some(path) = target_path(target) else {
            return Ok(None);
        };
        let Some(mount) = self.mount_of(alloc, path)? else {
            return Ok(None);
        };
        let Some(rest) = path.strip_prefix(words(mount).as_bytes()) else {
            return Ok(None);
        };
        let segments = pieces(alloc, rest)?;
        route_below(alloc, mount, &segments)
    }

    // The mount that a path is in. A router takes text, and a path may be any bytes: those that no words have are escaped for it.
    fn mount_of(&self, alloc: Global, path: &[u8]) -> Result<Option<Mount>, AllocError>
        ensures { IfOk result (λ mount. mount ≡ mount_of path.now) }
    {
        let text = percent_encode(path, CONTROLS).into_cow(alloc)?;
        match self.router.at(&text) {
            Ok(found) => Ok(Some(*found.value)),
            Err(_) => Ok(None),
        }
    }
}

// What is behind the words of a mount is cut by hand: an empty segment is one, too.
fn router(alloc: Global) -> Result<Router<Mount>, InsertError>
    ensures { IfOk result (λ router. router ≡ routes) }
{
    let mut router = Router::new(alloc);
    add_dav(&mut router)?;
    add_ocs(&mut router)?;
    Ok(router)
}

// Adds the mounts of files.
fn add_dav(router: &mut Router<Mount>) -> Result<(), InsertError>
    ensures { OnOk result (router.new ≡ with_dav router.old) }
{
    add_more(router, Mount::Files, "/remote.php/dav/files/{*rest}")?;
    add_more(router, Mount::Public, "/public.php/dav/files/{*rest}")?;
    add_more(router, Mount::Uploads, "/remote.php/dav/uploads/{*rest}")?;
    add_more(router, Mount::Trashbin, "/remote.php/dav/trashbin/{*rest}")?;
    add_more(router, Mount::Versions, "/remote.php/dav/versions/{*rest}")
}

// Adds the mounts of shares and people.
fn add_ocs(router: &mut Router<Mount>) -> Result<(), InsertError>
    ensures { OnOk result (router.new ≡ with_ocs router.old) }
{
    add_words(router, Mount::Shares)?;
    add_more(
        router,
        Mount::Share,
        "/ocs/v2.php/apps/files_sharing/api/v1/shares/{*rest}",
    )?;
    add_words(router, Mount::Users)?;
    add_more(router, Mount::User, "/ocs/v2.php/cloud/users/{*rest}")?;
    add_words(router, Mount::Groups)
}

// Adds a mount's words alone, which for a router are no front of what goes on.
fn add_words(router: &mut Router<Mount>, mount: Mount) -> Result<(), InsertError>
    ensures { OnOk result (router.new ≡ with_words mount router.old) }
{
    router.insert(words(mount), mount)
}

// Adds them, and a route for what stands behind them.
fn add_more(router: &mut Router<Mount>, mount: Mount, route: &str) -> Result<(), InsertError>
    ensures { OnOk result (router.new ≡ with_more mount route.now router.old) }
{
    add_words(router, mount)?;
    router.insert(route, mount)
}

fn words(mount: Mount) -> &'static str
    ensures { result.now ≡ words mount }
{
    match mount {
        Mount::Files => "/remote.php/dav/files/",
        Mount::Public => "/public.php/dav/files/",
        Mount::Uploads => "/remote.php/dav/uploads/",
        Mount::Trashbin => "/remote.php/dav/trashbin/",
        Mount::Versions => "/remote.php/dav/versions/",
        Mount::Shares => "/ocs/v2.php/apps/files_sharing/api/v1/shares",
        Mount::Share => "/ocs/v2.php/apps/files_sharing/api/v1/shares/",
        Mount::Users => "/ocs/v2.php/cloud/users",
        Mount::User => "/ocs/v2.php/cloud/users/",
        Mount::Groups => "/ocs/v2.php/cloud/groups",
    }
}

// The route of a mount and the segments behind its words.
fn route_below(alloc: Global, mount: Mount, segments: &[&[u8]]) -> Result<Option<Route>, AllocError>
    ensures { IfOk result (λ route. route ≡ route_below mount (map (λ segment. segment.now) segments.now)) }
{
    match mount {
        Mount::Files => Ok(Some(Route::Files)),
        Mount::Public => Ok(Some(Route::Public)),
        Mount::Uploads => upload_route(alloc, segments),
        Mount::Trashbin => Ok(trash_route(segments)),
        Mount::Versions => Ok(version_route(segments)),
        Mount::Shares => Ok(Some(Route::Shares)),
        Mount::Share => Ok(share_route(segments)),
        Mount::Users => Ok(Some(Route::Users)),
        Mount::User => Ok(user_route(segments)),
        Mount::Groups => Ok(Some(Route::Groups)),
    }
}

fn upload_route(alloc: Global, segments: &[&[u8]]) -> Result<Option<Route>, AllocError>
    ensures { IfOk result (λ route. route ≡ upload_route (map (λ segment. segment.now) segments.now)) }
{
    match segments {
        [_, _] => Ok(Some(Route::Upload)),
        [_, _, chunk] => Ok(Some(chunk_route(alloc, chunk)?)),
        _ => Ok(None),
    }
}

// The name of the whole file may be escaped, as any other.
fn chunk_route(alloc: Global, chunk: &[u8]) -> Result<Route, AllocError>
    ensures { IfOk result (λ route. route ≡ chunk_route chunk.now) }
{
    if decoded(alloc, chunk)?.as_slice() == b".file".as_slice() {
        Ok(Route::Assembly)
    } else {
        Ok(Route::Chunk)
    }
}

fn trash_route(segments: &[&[u8]]) -> Option<Route>
    ensures { result ≡ trash_route (map (λ segment. segment.now) segments.now) }
{
    match segments {
        [_, word] if *word == b"trash".as_slice() => Some(Route::Trash),
        [_, word, _] if *word == b"trash".as_slice() => Some(Route::TrashItem),
        _ => None,
    }
}

fn version_route(segments: &[&[u8]]) -> Option<Route>
    ensures { result ≡ version_route (map (λ segment. segment.now) segments.now) }
{
    match segments {
        [_, word, _] if *word == b"versions".as_slice() => Some(Route::Versions),
        [_, word, _, _] if *word == b"versions".as_slice() => Some(Route::Version),
        _ => None,
    }
}

fn share_route(segments: &[&[u8]]) -> Option<Route>
    ensures { result ≡ share_route (map (λ segment. segment.now) segments.now) }
{
    match segments {
        [_] => Some(Route::Share),
        _ => None,
    }
}

fn user_route(segments: &[&[u8]]) -> Option<Route>
    ensures { result ≡ user_route (map (λ segment. segment.now) segments.now) }
{
    match segments {
        [_] => Some(Route::User),
        [_, word] if *word == b"groups".as_slice() => Some(Route::Memberships),
        _ => None,
    }
}
