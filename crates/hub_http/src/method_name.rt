//! The names of methods.

ghost use Rattle.std.specs.Prelude.{◌≡◌, IfOk};

use std::alloc::{AllocError, Global};
use std::marker::Model;

// The form in which a name is kept.
#[derive(Debug, Drop)]
enum MethodRepr {
    Get,
    Head,
    Put,
    Post,
    Delete,
    Other(Vec<u8>),
}

/// The name of a request's method, as `GET` (RFC 9110, section 9.1). The names of the five methods that the
/// hub takes need no memory.
#[derive(Debug, Drop)]
pub struct MethodName {
    kept: MethodRepr,
}

impl Model for MethodName {
    ghost use Rattle.std.specs.Prelude.{ℕ, List};
    ghost use Rattle.hub_http.specs.MethodNames.{name_in};

    ghost Value = { List ℕ };

    ghost view = { λ a. name_in a.kept };
}

impl MethodName {
    /// The name of these bytes. It takes memory for a name that is none of GET, HEAD, PUT, POST and DELETE.
    pub fn new(alloc: Global, name: &[u8]) -> Result<MethodName, AllocError>
        ensures { IfOk result (λ made. made ≡ name.now) }
    {
        let kept = match name {
            [b'G', b'E', b'T'] => MethodRepr::Get,
            [b'P', b'U', b'T'] => MethodRepr::Put,
            [b'P', b'O', b'S', b'T'] => MethodRepr::Post,
            [b'H', b'E', b'A', b'D'] => MethodRepr::Head,
            [b'D', b'E', b'L', b'E', b'T', b'E'] => MethodRepr::Delete,
            _ => MethodRepr::Other(Vec::from_slice(alloc, name)?),
        };
        Ok(MethodName { kept })
    }

    /// The bytes of the name. Constant time.
    pub fn as_slice(&self) -> &[u8]
        ensures { result.now ≡ self.now }
    {
        match &self.kept {
            MethodRepr::Get => b"GET",
            MethodRepr::Head => b"HEAD",
            MethodRepr::Put => b"PUT",
            MethodRepr::Post => b"POST",
            MethodRepr::Delete => b"DELETE",
            MethodRepr::Other(name) => name.as_slice(),
        }
    }
}
