//! Values of JSON made of names, texts and numbers.
ghost use Rattle.std.specs.Prelude.{◌≡◌, IfOk, IsUtf8};
ghost use Rattle.serde_json.specs.Data.{string};
ghost use Rattle.serde_json.specs.View.{view};

use serde_json::Value;
use std::alloc::Global;
use tp_base::{Memory, Name};

/// A text, of bytes that are UTF-8.
pub(crate) fn text_value(alloc: Global, bytes: &[u8]) -> Result<Value, Memory>
    requires { IsUtf8 bytes.now }
    ensures { IfOk result (λ value. view value ≡ string bytes.now) }
{
    match std::str::from_utf8(bytes) {
        Ok(text) => Ok(Value::try_from_str(alloc, text)?),
        Err(_) => unreachable!(),
    }
}

pub(crate) fn name_value(alloc: Global, name: &Name) -> Result<Value, Memory>
    ensures { IfOk result (λ value. view value ≡ string name.now) }
{
    text_value(alloc, name.as_bytes())
}
