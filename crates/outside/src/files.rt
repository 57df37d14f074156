//! What files are.

ghost use Rattle.std.specs.Prelude.{◌≡◌, ◌≤◌, take, vec_len, IfOk, IfSome, IsErrOf};
ghost use Rattle.outside.specs.Faults.{Rose};
ghost use Rattle.outside.specs.Files.{FilesState, FilesFollow, names_after};

use crate::errors::ReadError;
use std::alloc::Global;

/// Where texts are read from, by name.
///
/// A read may fail; each failure raises a count of faults that never falls.
pub trait Files {
    /// The bytes under each name and the names asked for, where they are told, and the count of faults.
    ghost state: { Self → FilesState };

    /// Reads what is under a name, or the first `most` bytes of it.
    ///
    /// `Failed` says that it could not be read, and that the count of faults rose; `NoMemory` that memory was refused.
    fn read(&mut self, alloc: Global, name: &str, most: usize) -> Result<Vec<u8>, ReadError>
        ensures bytes { IfOk result (λ read. IfSome ((state self.old).told name.now) (λ told. read.items ≡ take most told)) }
        ensures within { IfOk result (λ read. vec_len read ≤ most) }
        ensures asked { (state self.new).asked ≡ names_after result (state self.old).asked name.now }
        ensures failed { IsErrOf result ReadError.Failed → Rose (state self.old).faults (state self.new).faults }
        ensures follow { FilesFollow (state self.old) (state self.new) };
}
