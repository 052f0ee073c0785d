//! The heads of chunks.
ghost use Rattle.std.specs.Prelude.{◌≡◌, ℕ, ◌+◌, ◌≤◌, ◌<◌, List, IfOk, IfErr, MatchResult, IsErrOf};
ghost use Rattle.ac_io.specs.Outside.{Rose};
ghost use Rattle.ac_riff.specs.Form.{padded, name_of, size_of};
ghost use Rattle.ac_io.specs.Within.{IsAt, TakesAtMost};
ghost use Rattle.ac_riff.specs.Pieces.{NameIs, ChunkRead, IsNoChunk};
ghost use Rattle.ac_riff.specs.Refusal.{RefusalLeaves};

use crate::fault::{WavFault, WavKind};
use crate::pieces::read_piece;
use ac_io::Source;
use byteorder::{ByteOrder, LittleEndian};

/// What a chunk is, by its name.
#[derive(Clone, Copy, Debug, PartialEq, Eq)]
pub enum Name {
    /// `fmt `
    Format,
    /// `data`
    Samples,
    /// Any other chunk.
    Other,
}

/// The head of a chunk: its name, and the number of bytes that it states.
#[derive(Clone, Copy, Debug, PartialEq, Eq)]
pub struct ChunkHead {
    pub name: Name,
    pub size: u32,
}

impl ChunkHead {
    /// The number of the chunk's bytes, with the pad byte after an odd size.
    pub fn padded(&self) -> u64
        ensures value { result ≡ padded self.now.size }
        ensures most { result ≤ 4294967296 }
    {
        u64::from(self.size) + u64::from(self.size % 2)
    }
}

/// What the first four bytes name.
fn named(head: &[u8; 8]) -> Name
    ensures { NameIs result (name_of head.now) }
{
    if &head[..4] == b"fmt ".as_slice() {
        return Name::Format;
    }
    if &head[..4] == b"data".as_slice() {
        return Name::Samples;
    }
    Name::Other
}

/// The head of a chunk in its bytes.
fn chunk_head(head: &[u8; 8]) -> ChunkHead
    ensures named { NameIs result.name (name_of head.now) }
    ensures size { result.size ≡ size_of head.now }
{
    ChunkHead {
        name: named(head),
        size: LittleEndian::read_u32(&head[4..]),
    }
}

/// Reads the head of the chunk that begins at `place`.
///
/// # Errors
///
/// `Bad(NoData, ..)` where no byte is there, `Bad(Short, ..)` where the input ends inside the head, `TooLong` and `ReadFault`.
pub fn read_chunk_head<S: Source>(
    input: &mut S,
    place: u64,
    limit: u64,
) -> Result<ChunkHead, WavFault>
    requires { place ≤ limit }
    ensures bound { IfOk result (λ _. place + 8 ≤ limit) }
    ensures told { (bytes : List ℕ) → IsAt bytes place (S.left input.old) → MatchResult result
        (λ chunk. ChunkRead bytes place chunk (S.left input.new)) (λ fault. RefusalLeaves bytes limit fault (S.left input.new)) }
    ensures cause { (bytes : List ℕ) → IsAt bytes place (S.left input.old) → IfErr result (IsNoChunk bytes place limit) }
    ensures most_read { (bytes : List ℕ) → IsAt bytes place (S.left input.old) → TakesAtMost bytes (limit + 1) (S.left input.new) }
    ensures no_further { (bytes : List ℕ) → IsAt bytes place (S.left input.old) → IsErrOf result WavFault.ReadFault
        → TakesAtMost bytes (place + 8) (S.left input.new) }
    ensures rose { IsErrOf result WavFault.ReadFault → Rose (S.faults input.old) (S.faults input.new) }
    ensures never_falls { S.faults input.old ≤ S.faults input.new }
{
    let mut head = [0; 8];
    let n = read_piece(input, place, limit, &mut head)?;
    if n == 0 {
        return Err(WavFault::Bad(WavKind::NoData, place));
    }
    if n < 8 {
        return Err(WavFault::Bad(WavKind::Short, place + n as u64));
    }
    Ok(chunk_head(&head))
}
