ghost use Rattle.std.specs.Prelude.{◌≡◌, IfOk};
ghost use Rattle.httparse.specs.Grammar.{IsToken};

use fare_ports::NoMemory;
use http::Method;
use http::method::MethodError;
use std::alloc::Global;

/// The method of a head, whose grammar lets in no other bytes than those of a method.
pub fn head_method(alloc: Global, token: &[u8]) -> Result<Method, NoMemory>
    requires { IsToken token.now }
    ensures { IfOk result (λ method. method ≡ token.now) }
{
    match Method::from_bytes(alloc, token) {
        Ok(method) => Ok(method),
        Err(MethodError::OutOfMemory) => Err(NoMemory),
        Err(MethodError::Invalid) => unreachable!(),
    }
}
