//! The program's files.
ghost use Rattle.std.specs.Prelude.{◌≡◌, ◌≤◌, ℕ, List, Option, Some, None, Ok, Err, IfErr, IfOk, IfSome, IsErrAnd, length, take};
ghost use Rattle.std.specs.IoError.{error_kind};
ghost use Rattle.program_files.specs.Opened.{IsFaultOf};

use std::alloc::Global;
use std::fs::File;
use std::io;
use std::io::{ErrorKind, Read};

/// Why a file gave no bytes.
#[derive(Clone, Copy)]
pub enum ReadFault {
    /// It is not there, or a read of it failed.
    Unreadable,
    /// Memory ran out.
    NoMemory,
}

impl From<io::Error> for ReadFault {
    ghost from_gives = { λ error fault. IsFaultOf (error_kind error) fault };

    fn from(error: io::Error) -> Self {
        if error.kind() == ErrorKind::OutOfMemory {
            ReadFault::NoMemory
        } else {
            ReadFault::Unreadable
        }
    }
}

/// Files, each under its path.
pub trait Files {
    // The bytes that a path gives; or none, if it can't be read. If nothing is known of the files, everything is possible.
    ghost gives: { Self → List ℕ → Option (List ℕ) → Type 0 } = { λ _ _ _. Unit {0} };

    /// Returns the first bytes of a file, at most `most` of them.
    fn read(&self, alloc: Global, path: &str, most: usize) -> Result<Vec<u8>, ReadFault>
        ensures front { IfOk result (λ front. (bytes : List ℕ) × gives self.now path.now (Some bytes) × (front.items ≡ take most bytes)) }
        ensures unreadable { result ≡ Err ReadFault.Unreadable → gives self.now path.now None };
}

/// The machine's files. Nothing is claimed about what they give.
impl Files for HostRuntime {
    fn read(&self, alloc: Global, path: &str, most: usize) -> Result<Vec<u8>, ReadFault> {
        read_opened(alloc, File::open(self, path), most)
    }
}

/// Returns the first bytes of an opened file, at most `most` of them; or why it gave none.
pub fn read_opened<R: Read + Drop>(
    alloc: Global,
    opened: io::Result<R>,
    most: usize,
) -> Result<Vec<u8>, ReadFault>
    ensures most { IfOk result (λ front. length front.items ≤ most) }
    ensures bytes { IfOk result (λ front. IfOk opened (λ reader. IfSome (R.remaining reader) (λ bytes. front.items ≡ take most bytes))) }
    ensures unopened { IfErr opened (λ error. IsErrAnd result (IsFaultOf (error_kind error))) }
{
    read_or_fault(front_of(alloc, opened?, most))
}

/// The bytes that were read, or why the read failed.
pub(crate) fn read_or_fault(read: io::Result<Vec<u8>>) -> Result<Vec<u8>, ReadFault>
    ensures ok { IfOk read (λ bytes. result ≡ Ok bytes) }
    ensures err { IfErr read (λ error. IsErrAnd result (IsFaultOf (error_kind error))) }
{
    Ok(read?)
}

/// The first bytes of a reader, at most `most` of them.
pub(crate) fn front_of<R: Read + Drop>(alloc: Global, reader: R, most: usize) -> io::Result<Vec<u8>>
    ensures most { IfOk result (λ front. length front.items ≤ most) }
    ensures bytes { IfOk result (λ front. IfSome (R.remaining reader) (λ bytes. front.items ≡ take most bytes)) }
{
    let mut bytes = Vec::new(alloc);
    let mut limited = reader.take(most as u64);
    limited.read_to_end(&mut bytes)?;
    bytes.truncate(most);
    Ok(bytes)
}
