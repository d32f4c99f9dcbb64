// Files in memory.

ghost use Rattle.std.specs.Prelude.{◌≡◌, ◌≤◌, filter, not, bytes_eq, vec_len, vec_capacity};

use mc_word::bytes::{Bytes, Text};

/// A file in memory, with its name.
#[derive(Debug, Drop)]
pub struct MemFile {
    pub name: Text,
    pub bytes: Bytes,
}

impl MemFile {
    /// Whether the file bears this name.
    pub fn is_named(&self, name: &str) -> bool
        ensures { result ≡ bytes_eq self.now.name name.now }
    {
        self.name.as_slice() == name.as_bytes()
    }
}

// Takes out each file of this name, and keeps the room.
pub(crate) fn remove_file(files: &mut Vec<MemFile>, name: &str)
    ensures others { files.new.items ≡ filter (λ f. not (bytes_eq f.name name.now)) files.old.items }
    ensures len { vec_len files.new ≤ vec_len files.old }
    ensures capacity { vec_capacity files.new ≡ vec_capacity files.old }
{
    files.retain(|file| !file.is_named(name));
}
