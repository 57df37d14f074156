//! A file in memory, and how one is found.

ghost use Rattle.std.specs.Prelude.{◌≡◌, IfOk, take, option_copied};
ghost use Rattle.outside.specs.StoredFiles.{bytes_of};

use lists::Text;
use std::alloc::{AllocError, Global};

/// A file in memory.
#[derive(Drop)]
pub struct StoredFile {
    pub name: Text,
    pub bytes: Text,
}

impl StoredFile {
    /// A file with copies of a name and of bytes.
    pub fn new(alloc: Global, name: &str, bytes: &[u8]) -> Result<Self, AllocError>
        ensures { IfOk result (λ file. file ≡ record { name = name.now; bytes = bytes.now }) }
    {
        Ok(StoredFile {
            name: copied(alloc, name.as_bytes())?,
            bytes: copied(alloc, bytes)?,
        })
    }
}

/// A copy of bytes.
pub(crate) fn copied(alloc: Global, bytes: &[u8]) -> Result<Text, AllocError>
    ensures { IfOk result (λ text. text ≡ bytes.now) }
{
    Ok(Text::from_vec(Vec::from_slice(alloc, bytes)?))
}

/// A copy of the first `most` bytes, or of all where there are fewer.
pub(crate) fn first_bytes(alloc: Global, bytes: &[u8], most: usize) -> Result<Vec<u8>, AllocError>
    ensures { IfOk result (λ read. read.items ≡ take most bytes.now) }
{
    Vec::from_slice(alloc, &bytes[..most.min(bytes.len())])
}

/// The bytes of the first file of a name. It looks at one file after the other, since few are held: files in memory are
/// for tests.
pub(crate) fn find_bytes<'a>(held: &'a [StoredFile], name: &str) -> Option<&'a [u8]>
    ensures { option_copied result ≡ bytes_of held.now name.now }
{
    let file = held
        .iter()
        .find(|file| file.name.as_slice() == name.as_bytes())?;
    Some(file.bytes.as_slice())
}
