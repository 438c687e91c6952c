// Paths as the host takes them, and what its errors mean.
ghost use Rattle.std.specs.Prelude.{◌≡◌, ◌↔◌, ◌⊎◌, ◌++◌, IfErr, IfOk, IfSome, IsOk, IsTrue, Ok, codes};
ghost use Rattle.std.specs.IoError.{error_kind};
ghost use Rattle.std.specs.Str.{IsUtf8};
ghost use Rattle.dc_host.specs.Folders.{joined};

use dc_outside::FilesError;
use dc_text::{Mem, Text};
use std::alloc::Global;
use std::io;
use std::io::ErrorKind;

/// The path as the host takes it. One that isn't UTF-8 is a fault.
pub fn path_of(path: &Text) -> Result<&str, FilesError>
    ensures ok { IfOk result (λ text. text.now ≡ path.now) }
    ensures taken { IsOk result ↔ IsUtf8 path.now }
    ensures failed { IfErr result (λ error. error ≡ FilesError.Failed) }
{
    match std::str::from_utf8(path.bytes()) {
        Ok(path) => Ok(path),
        Err(_) => Err(FilesError::Failed),
    }
}

/// The path of a name in a folder. A folder or a name without bytes adds nothing.
pub fn join(alloc: Global, folder: &[u8], name: &[u8]) -> Mem<Text>
    ensures { IfOk result (λ path. path ≡ joined folder.now name.now) }
{
    match (folder, name) {
        ([], _) => Text::from_bytes(alloc, name),
        (_, []) => Text::from_bytes(alloc, folder),
        _ => {
            let mut path = Text::from_bytes(alloc, folder)?;
            path.push(b'/')?;
            path.append(name)?;
            Ok(path)
        }
    }
}

/// The path in whose place the file of this name is to be put, where it is a new one.
pub fn place_of_new(name: &str) -> Option<&str>
    ensures { IfSome result (λ place. place.now ++ codes "-new" ≡ name.now) }
{
    match name.as_bytes().strip_suffix(b"-new".as_slice()) {
        Some(place) => match std::str::from_utf8(place) {
            Ok(place) => Some(place),
            Err(_) => None,
        },
        None => None,
    }
}

/// Whether nothing stands at the path: a name in it is missing, or a file stands in the place of a folder above.
pub fn is_missing(error: &io::Error) -> bool
    ensures { IsTrue result ↔ (error_kind error.now ≡ ErrorKind.NotFound) ⊎ (error_kind error.now ≡ ErrorKind.NotADirectory) }
{
    matches!(error.kind(), ErrorKind::NotFound | ErrorKind::NotADirectory)
}

/// Whether the user of this process may not do it.
pub fn is_denied(error: &io::Error) -> bool
    ensures { IsTrue result ↔ (error_kind error.now ≡ ErrorKind.PermissionDenied) ⊎ (error_kind error.now ≡ ErrorKind.ReadOnlyFilesystem) }
{
    matches!(
        error.kind(),
        ErrorKind::PermissionDenied | ErrorKind::ReadOnlyFilesystem
    )
}

/// What an error of the host is to the files: want of memory, or else a fault.
pub fn failed(error: &io::Error) -> FilesError
    ensures { (result ≡ FilesError.OutOfMemory) ↔ (error_kind error.now ≡ ErrorKind.OutOfMemory) }
{
    if error.kind() == ErrorKind::OutOfMemory {
        FilesError::OutOfMemory
    } else {
        FilesError::Failed
    }
}

/// The answer as the files give it.
pub fn done<T: Drop>(answer: io::Result<T>) -> Result<T, FilesError>
    ensures taken { IsOk result ↔ IsOk answer }
    ensures ok { IfOk result (λ value. answer ≡ Ok value) }
    ensures failed { IfErr answer (λ cause. IfErr result (λ error. (error ≡ FilesError.OutOfMemory) ↔ (error_kind cause ≡ ErrorKind.OutOfMemory))) }
{
    match answer {
        Ok(value) => Ok(value),
        Err(error) => Err(failed(&error)),
    }
}
