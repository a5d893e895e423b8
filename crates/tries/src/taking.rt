//! The line that makes the input of the last try the session's.
ghost use Rattle.std.specs.Prelude.{◌≡◌, IfOk, None, if◌then◌else◌};
ghost use Rattle.replay_session.specs.Trying.{GivesInput};
ghost use Rattle.tries.specs.Tries.{taken, takes};

use commands::{Bytes, Edit, Fault};
use std::alloc::{AllocError, Global};

const TAKE: &[u8] = b"take";

/// Whether a line makes the input of the last try the session's.
#[tactic(auto, unfolding(crate::specs::Tries::takes))]
pub(crate) fn takes(line: &[u8]) -> bool
    ensures { result ≡ takes line.now }
{
    line == TAKE
}

/// Takes the edit of the last try, if there is one: as that such a line is read.
pub(crate) fn take_last(last: &mut Option<Edit>) -> Result<Edit, Fault>
    ensures read { result ≡ taken last.old }
    ensures left { last.new ≡ None }
{
    last.take().ok_or(Fault::BadCommand)
}

/// Forgets the last try, unless it is kept.
pub(crate) fn keep_if(last: &mut Option<Edit>, is_kept: bool)
    ensures { last.new ≡ (if is_kept then last.old else None) }
{
    if !is_kept {
        *last = None;
    }
}

/// Returns a copy of bytes.
fn copied(alloc: Global, bytes: &Bytes) -> Result<Bytes, AllocError>
    ensures { IfOk result (λ copy. copy ≡ bytes.now) }
{
    let items = bytes.as_slice().to_vec(alloc)?;
    Ok(Bytes::new(items))
}

/// Returns a copy of an edit that gives the input bytes.
pub(crate) fn copy_of(alloc: Global, edit: &Edit) -> Result<Edit, AllocError>
    requires { GivesInput edit.now }
    ensures { IfOk result (λ copy. copy ≡ edit.now) }
{
    match edit {
        Edit::Overwrite { offset, bytes } => {
            let bytes = copied(alloc, bytes)?;
            Ok(Edit::Overwrite {
                offset: *offset,
                bytes,
            })
        }
        Edit::Give(bytes) => {
            let bytes = copied(alloc, bytes)?;
            Ok(Edit::Give(bytes))
        }
        _ => unreachable!(),
    }
}
