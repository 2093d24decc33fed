//! Routes.

ghost use Rattle.std.specs.Prelude.{◌≡◌, IfOk, IfSome, IfNone, IsSome, option_map};
ghost use Rattle.std.specs.Str.{IsUtf8};
ghost use Rattle.sg_http.specs.Places.{path_of, place_on, place_of, routes};

use matchit::{InsertError, Router};
use sg_lines::read_decimal;
use sg_plan::NoMemory;
use std::alloc::Global;

/// A route.
#[derive(Clone, Copy, Debug, PartialEq, Eq)]
pub enum Route {
    Ask,
    Receipt,
    Totals,
}

/// What a path leads to.
#[derive(Clone, Copy, Debug, PartialEq, Eq)]
pub enum Place {
    Ask,
    Receipt(u32),
    Totals,
}

/// The three routes.
pub fn make_routes(alloc: Global) -> Result<Router<Route>, InsertError>
    ensures { IfOk result (λ router. router ≡ routes) }
{
    let mut router = Router::new(alloc);
    router.insert("/ask", Route::Ask)?;
    router.insert("/receipt/{ballot}", Route::Receipt)?;
    router.insert("/totals", Route::Totals)?;
    Ok(router)
}

/// What a route makes of its path.
fn place_on_route(path: &[u8], route: Route) -> Option<Place>
    ensures { result ≡ place_on path.now route }
{
    match route {
        Route::Ask => Some(Place::Ask),
        Route::Totals => Some(Place::Totals),
        Route::Receipt => {
            if path.len() < 9 {
                return read_decimal(b"").map(Place::Receipt);
            }
            read_decimal(&path[9..]).map(Place::Receipt)
        }
    }
}

/// What a path leads to.
pub fn find_place(router: &Router<Route>, path: &str) -> Option<Place>
    requires { router.now ≡ routes }
    ensures { result ≡ place_of path.now }
{
    match router.at(path) {
        Ok(found) => place_on_route(path.as_bytes(), *found.value),
        Err(_) => None,
    }
}
