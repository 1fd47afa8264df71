//! Targets, segments and methods.

use nf_routes::{
    Method, Routes, allow, is_ocs, method_of, restores_version, segments, takes, version_segments,
};
use nf_words::Route;
use std::alloc::{AllocError, Global};
use std::test::Fail;

fn finds(alloc: Global, target: &[u8], route: Option<Route>) -> Result<bool, AllocError> {
    Ok(Routes::new(alloc)?.find(alloc, target)? == route)
}

#[test]
fn routes_of_targets(rt: HostRuntime) -> Result<(), Fail> {
    let alloc = rt.alloc();
    assert!(rt; finds(alloc, b"/remote.php/dav/files//x/", Some(Route::Files))?);
    assert!(rt; finds(alloc, b"/remote.php/dav/files/", None)?);
    assert!(rt;
        finds(
            alloc,
            b"http://host/ocs/v2.php/cloud/users?q=/x",
            Some(Route::Users)
        )?
    );
    assert!(rt;
        finds(
            alloc,
            b"/remote.php/dav/uploads/u/d/%2Efile",
            Some(Route::Assembly)
        )?
    );
    assert!(rt; finds(alloc, b"/remote.php/dav/uploads/u/d/5", Some(Route::Chunk))?);
    assert!(rt;
        finds(
            alloc,
            b"/remote.php/dav/trashbin/u/trash/5",
            Some(Route::TrashItem)
        )?
    );
    assert!(rt; finds(alloc, b"/remote.php/dav/versions/u/version/5", None)?);
    assert!(rt;
        finds(
            alloc,
            b"/remote.php/dav/versions/u/versions/5/7",
            Some(Route::Version)
        )?
    );
    assert!(rt;
        finds(
            alloc,
            b"/ocs/v2.php/cloud/users/u/groups",
            Some(Route::Memberships)
        )?
    );
    assert!(rt; is_ocs(b"https://host/ocs/v2.php/x") && !is_ocs(b"/ocs/v2.php"));
    Ok(())
}

#[test]
fn segments_are_decoded(rt: HostRuntime) -> Result<(), Fail> {
    let all = segments(rt.alloc(), b"/remote.php/dav/files//a%2Fb+c%zz/?q=/x")?;
    assert!(rt; all.len() == 2);
    assert!(rt; all[0].as_slice() == b"".as_slice());
    assert!(rt; all[1].as_slice() == b"a/b+c%zz".as_slice());
    let by_link = segments(rt.alloc(), b"http://host/public.php/dav/files/%61a7/x/")?;
    assert!(rt; by_link.len() == 2);
    assert!(rt; by_link[0].as_slice() == b"aa7".as_slice());
    Ok(())
}

#[test]
fn versions_by_number(rt: HostRuntime) -> Result<(), Fail> {
    let alloc = rt.alloc();
    let all = version_segments(alloc, b"/remote.php/dav/versions/u/versions/%35/7/")?;
    assert!(rt; all.len() == 4);
    assert!(rt; all[2].as_slice() == b"5".as_slice());
    assert!(rt; all[3].as_slice() == b"7".as_slice());
    assert!(rt; restores_version(alloc, b"u", b"/remote.php/dav/versions/%75/restore/x")?);
    assert!(rt; !restores_version(alloc, b"v", b"/remote.php/dav/versions/u/restore/x")?);
    assert!(rt; !restores_version(alloc, b"u", b"/remote.php/dav/trashbin/u/restore/x")?);
    Ok(())
}

#[test]
fn methods_of_routes(rt: HostRuntime) -> Result<(), Fail> {
    assert!(rt; method_of(b"MKCOL") == Some(Method::Mkcol) && method_of(b"get").is_none());
    assert!(rt; takes(Route::Trash, Method::Delete) && !takes(Route::Files, Method::Post));
    assert!(rt; allow(Route::Trash) == "GET, DELETE");
    Ok(())
}
