// Reading a file to its end, up to a limit.
ghost use Rattle.std.specs.Prelude.{◌≡◌, ◌<◌, ◌≤◌, ◌^◌, ◌+◌, length, [], IfOk, IsTrue, vec_len};
ghost use Rattle.mp_outside.specs.Causes.{FailsOnlyIf, UnlessFailed};
ghost use Rattle.mp_outside.specs.Contents.{ReadsUpTo};
ghost use Rattle.mp_outside.specs.Seen.{OnlyReads, ReadFailed, NoReadFailed};

use crate::files::{Files, OutFault};
use std::alloc::Global;

// What one read asks for.
const PIECE: usize = 65536;

/// Reads a file up to a limit. Of a file whose length is at most the limit the answer is the whole
/// file; of a longer one its first bytes, one more than the limit, which says that it is too long.
/// No read asks for a byte behind these.
///
/// `Failed` is that of a read. A file that isn't held fails.
pub fn read_to_limit<F: Files>(
    alloc: Global,
    files: &mut F,
    name: &str,
    limit: u32,
) -> Result<Vec<u8>, OutFault>
    requires { limit ≤ 2 ^ 28 }
    ensures bytes { IsTrue (F.seen files.old).tells → ReadsUpTo limit ((F.seen files.old).held name.now) result }
    ensures size { IfOk result (λ got. vec_len got ≤ limit + 1) }
    ensures cause { FailsOnlyIf result (ReadFailed name.now (F.seen files.old) (F.seen files.new)) }
    ensures uncounted { UnlessFailed result (NoReadFailed (F.seen files.old) (F.seen files.new)) }
    ensures only { OnlyReads (F.seen files.old) (F.seen files.new) }
{
    let mut buf = vec![in alloc; 0; PIECE]?;
    read_pieces(alloc, files, name, limit, buf.as_mut_slice())
}

// The same, each piece through a buffer.
fn read_pieces<F: Files>(
    alloc: Global,
    files: &mut F,
    name: &str,
    limit: u32,
    buf: &mut [u8],
) -> Result<Vec<u8>, OutFault>
    requires limit { limit ≤ 2 ^ 28 }
    requires room { 0 < length buf.old }
    ensures bytes { IsTrue (F.seen files.old).tells → ReadsUpTo limit ((F.seen files.old).held name.now) result }
    ensures size { IfOk result (λ got. vec_len got ≤ limit + 1) }
    ensures cause { FailsOnlyIf result (ReadFailed name.now (F.seen files.old) (F.seen files.new)) }
    ensures uncounted { UnlessFailed result (NoReadFailed (F.seen files.old) (F.seen files.new)) }
    ensures only { OnlyReads (F.seen files.old) (F.seen files.new) }
{
    let mut bytes = Vec::new(alloc);
    while bytes.len() <= limit as usize {
        let at = bytes.len();
        let room = buf.len().min(limit as usize + 1 - at);
        let count = files.read_at(name, at as u64, &mut buf[..room])?;
        if count == 0 {
            return Ok(bytes);
        }
        bytes.extend_from_slice(&buf[..count])?;
    }
    Ok(bytes)
}
