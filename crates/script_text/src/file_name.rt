//! Names of files.

ghost use Rattle.std.specs.Prelude.{◌≡◌, true, IfOk};
ghost use Rattle.std.specs.Str.{is_utf8};
ghost use Rattle.script_text.specs.Kinds.{file_name_of};

use ale_base::OutOfMemory;
use std::alloc::Global;
use std::marker::Model;
use std::str;

/// The name of a file, which is UTF-8. Contracts see its bytes.
#[derive(Drop)]
pub struct FileName {
    name: String,
}

impl Model for FileName {
    ghost use Rattle.std.specs.Prelude.{ℕ, List, string_bytes};

    ghost Value = { List ℕ };

    ghost view = { λ file. string_bytes file.name };
}

impl FileName {
    /// The name of these bytes. None exactly where they are no UTF-8.
    pub(crate) fn of(alloc: Global, bytes: &[u8]) -> Result<Option<FileName>, OutOfMemory>
        ensures { IfOk result (λ name. name ≡ file_name_of bytes.now) }
    {
        match str::from_utf8(bytes) {
            Ok(name) => Ok(Some(FileName {
                name: String::from_str(alloc, name)?,
            })),
            Err(_) => Ok(None),
        }
    }

    /// The name.
    pub fn as_str(&self) -> &str
        ensures text { result.now ≡ self.now }
        ensures utf8 { is_utf8 self.now ≡ true }
    {
        self.name.as_str()
    }
}
