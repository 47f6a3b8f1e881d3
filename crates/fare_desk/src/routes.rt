//! The routes of requests, and which of them a path takes.

ghost use Rattle.std.specs.Prelude.{◌≡◌, OnOk};
ghost use Rattle.fare_desk.specs.Routes.{desk_rows, method_of, route_of, with_pattern};

use fare_json::OneMethod;
use fare_ports::NoMemory;
use matchit::Router;
use std::alloc::Global;

/// A route of requests.
#[derive(Clone, Copy, Debug, PartialEq, Eq)]
pub enum Route {
    /// `/editions`
    Editions,
    /// `/editions/{n}`
    Edition,
    /// `/json/editions`
    Listing,
    /// `/quote`, `/json/quote`
    Quote,
    /// `/batch`, `/json/batch`
    Batch,
}

impl Route {
    /// Its method, where it is said to take one. A publication is asked for at `/editions` too.
    pub fn method(self) -> OneMethod
        ensures { result ≡ method_of self }
    {
        match self {
            Route::Editions | Route::Edition | Route::Listing => OneMethod::Get,
            Route::Quote | Route::Batch => OneMethod::Post,
        }
    }
}

/// The desk's routes.
#[derive(Drop)]
pub struct Routes {
    router: Router<Route>,
    ghost all: { router ≡ desk_rows },
}

impl Routes {
    /// All of them.
    pub fn new(alloc: Global) -> Result<Routes, NoMemory> {
        let mut router = Router::new(alloc);
        put(&mut router, "/editions", Route::Editions)?;
        put(&mut router, "/editions/{n}", Route::Edition)?;
        put(&mut router, "/quote", Route::Quote)?;
        put(&mut router, "/batch", Route::Batch)?;
        put(&mut router, "/json/editions", Route::Listing)?;
        put(&mut router, "/json/quote", Route::Quote)?;
        put(&mut router, "/json/batch", Route::Batch)?;
        Ok(Routes { router })
    }

    /// The route that a path takes.
    pub fn find(&self, path: &str) -> Option<Route>
        ensures { result ≡ route_of path.now }
    {
        match self.router.at(path) {
            Ok(found) => Some(*found.value),
            Err(_) => None,
        }
    }
}

/// Puts a route under its pattern.
fn put(router: &mut Router<Route>, pattern: &str, route: Route) -> Result<(), NoMemory>
    ensures { OnOk result (router.new ≡ with_pattern pattern.now route router.old) }
{
    match router.insert(pattern, route) {
        Ok(()) => Ok(()),
        Err(_) => Err(NoMemory),
    }
}
