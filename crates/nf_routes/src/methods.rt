//! The methods of routes.

ghost use Rattle.std.specs.Prelude.{◌≡◌};
ghost use Rattle.nf_routes.specs.Methods.{method_of as the_method_of, allow_of, takes as has};

use nf_words::Route;

/// The methods that some route has.
#[derive(Clone, Copy, PartialEq, Eq)]
pub enum Method {
    Get,
    Put,
    Mkcol,
    Delete,
    Move,
    Copy,
    Post,
}

/// The method of a name, in upper case.
pub fn method_of(name: &[u8]) -> Option<Method>
    ensures { result ≡ the_method_of name.now }
{
    if name == b"GET".as_slice() {
        Some(Method::Get)
    } else if name == b"PUT".as_slice() {
        Some(Method::Put)
    } else if name == b"MKCOL".as_slice() {
        Some(Method::Mkcol)
    } else if name == b"DELETE".as_slice() {
        Some(Method::Delete)
    } else if name == b"MOVE".as_slice() {
        Some(Method::Move)
    } else if name == b"COPY".as_slice() {
        Some(Method::Copy)
    } else if name == b"POST".as_slice() {
        Some(Method::Post)
    } else {
        None
    }
}

/// Whether a route has a method.
pub fn takes(route: Route, method: Method) -> bool
    ensures { result ≡ has route method }
{
    match route {
        Route::Files | Route::Public => method != Method::Post,
        Route::Upload => matches!(method, Method::Mkcol | Method::Delete),
        Route::Chunk | Route::Assembly => matches!(method, Method::Put | Method::Move),
        Route::Trash => matches!(method, Method::Get | Method::Delete),
        Route::TrashItem => matches!(method, Method::Delete | Method::Move),
        Route::Versions => method == Method::Get,
        Route::Version => matches!(method, Method::Get | Method::Move),
        Route::Shares => matches!(method, Method::Get | Method::Post),
        Route::Share => matches!(method, Method::Get | Method::Put | Method::Delete),
        Route::Users | Route::Groups => method == Method::Post,
        Route::User => method == Method::Put,
        Route::Memberships => matches!(method, Method::Post | Method::Delete),
    }
}

/// The names of a route's methods, as the field Allow has them.
pub fn allow(route: Route) -> &'static str
    ensures { result.now ≡ allow_of route }
{
    match route {
        Route::Files | Route::Public => "GET, PUT, MKCOL, DELETE, MOVE, COPY",
        Route::Upload => "MKCOL, DELETE",
        Route::Chunk | Route::Assembly => "PUT, MOVE",
        Route::Trash => "GET, DELETE",
        Route::TrashItem => "DELETE, MOVE",
        Route::Versions => "GET",
        Route::Version => "GET, MOVE",
        Route::Shares => "GET, POST",
        Route::Share => "GET, PUT, DELETE",
        Route::Users | Route::Groups => "POST",
        Route::User => "PUT",
        Route::Memberships => "POST, DELETE",
    }
}
