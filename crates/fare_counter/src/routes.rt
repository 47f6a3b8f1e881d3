//! The routes that a counter answers itself, and which of them a path takes.

ghost use Rattle.std.specs.Prelude.{◌≡◌, OnOk};
ghost use Rattle.fare_counter.specs.Routes.{counter_route_of, counter_rows, method_of, with_pattern};

use fare_json::OneMethod;
use fare_ports::NoMemory;
use matchit::Router;
use std::alloc::Global;

/// A route that a counter answers itself.
#[derive(Clone, Copy, Debug, PartialEq, Eq)]
pub enum CounterRoute {
    /// `/best/{k}`, `/json/best/{k}`
    Best,
    /// `/audit`, `/json/audit`
    Audit,
    /// `/why`, `/json/why`
    Why,
    /// `/check`
    Check,
    /// `/editions/{n}/diff/{m}`
    Diff,
}

impl CounterRoute {
    /// Its one method.
    pub fn method(self) -> OneMethod
        ensures { result ≡ method_of self }
    {
        match self {
            CounterRoute::Best | CounterRoute::Audit | CounterRoute::Why | CounterRoute::Check => {
                OneMethod::Post
            }
            CounterRoute::Diff => OneMethod::Get,
        }
    }
}

/// The counter's own routes.
#[derive(Drop)]
pub struct CounterRoutes {
    router: Router<CounterRoute>,
    ghost all: { router ≡ counter_rows },
}

impl CounterRoutes {
    /// All of them.
    pub fn new(alloc: Global) -> Result<CounterRoutes, NoMemory> {
        let mut router = Router::new(alloc);
        put(&mut router, "/best/{k}", CounterRoute::Best)?;
        put(&mut router, "/audit", CounterRoute::Audit)?;
        put(&mut router, "/why", CounterRoute::Why)?;
        put(&mut router, "/check", CounterRoute::Check)?;
        put(&mut router, "/editions/{n}/diff/{m}", CounterRoute::Diff)?;
        put(&mut router, "/json/best/{k}", CounterRoute::Best)?;
        put(&mut router, "/json/audit", CounterRoute::Audit)?;
        put(&mut router, "/json/why", CounterRoute::Why)?;
        Ok(CounterRoutes { router })
    }

    /// The route that a path takes.
    pub fn find(&self, path: &str) -> Option<CounterRoute>
        ensures { result ≡ counter_route_of path.now }
    {
        match self.router.at(path) {
            Ok(found) => Some(*found.value),
            Err(_) => None,
        }
    }
}

/// Puts a route under its pattern.
fn put(
    router: &mut Router<CounterRoute>,
    pattern: &str,
    route: CounterRoute,
) -> Result<(), NoMemory>
    ensures { OnOk result (router.new ≡ with_pattern pattern.now route router.old) }
{
    match router.insert(pattern, route) {
        Ok(()) => Ok(()),
        Err(_) => Err(NoMemory),
    }
}
