ghost use Rattle.std.specs.Prelude.{◌≡◌, IfOk, string_bytes};
ghost use Rattle.std.specs.Str.{IsUtf8};
ghost use Rattle.serde_json.specs.Data.{string};

use crate::shown::Shown;
use pq_term::Name;
use serde_json::Value;
use std::alloc::{AllocError, Global};
use std::str;

// The text with these bytes.
fn text(alloc: Global, bytes: &[u8]) -> Result<String, AllocError>
    requires { IsUtf8 bytes.now }
    ensures { IfOk result (λ text. string_bytes text ≡ bytes.now) }
{
    match str::from_utf8(bytes) {
        Ok(text) => String::from_str(alloc, text),
        Err(_) => unreachable!(),
    }
}

impl Shown for Name {
    ghost shown_as = { string };

    fn shown(&self, alloc: Global) -> Result<Value, AllocError> {
        let text = text(alloc, self.bytes())?;
        Ok(Value::String(text))
    }
}
