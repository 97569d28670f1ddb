ghost use Rattle.std.specs.Prelude.{◌≡◌, ◌≢◌, ◌+◌, ◌<◌, ◌≤◌, length, vec_len, IfOk, OnErr};
ghost use Rattle.std.specs.Io.KnownBytes.{Keeps};
ghost use Rattle.vrp_io.specs.Counts.{Rose, Kept};
ghost use Rattle.vrp_io.specs.Bytes.{TookAll, TookAtMost, TookExactly, MovesBytes};

use crate::fault::ReadFault;
use crate::source::Source;
use path_graph::List;
use std::alloc::Global;

/// How many bytes a read asks for at most.
const PIECE: usize = 4_096;

/// Reads once and appends the bytes. At most `most` bytes are then there.
fn read_more<S: Source>(
    source: &mut S,
    most: usize,
    bytes: &mut Vec<u8>,
) -> Result<usize, ReadFault>
    requires { vec_len bytes.old < most }
    ensures bytes { IfOk result (λ n. MovesBytes (S.left source.old) (S.left source.new)
        bytes.old.items bytes.new.items n) }
    ensures few { IfOk result (λ n. length bytes.new.items ≤ most) }
    ensures err { OnErr result (Keeps (S.left source.old) (S.left source.new)) }
    ensures later { S.faults source.old ≤ S.faults source.new }
    ensures read { result ≡ Err ReadFault.Read →
        Rose (S.faults source.old) (S.faults source.new) }
    ensures kept { result ≢ Err ReadFault.Read →
        Kept S.answers_each_fault (S.faults source.old) (S.faults source.new) }
    ensures never_long { result ≢ Err ReadFault.TooLong }
    ensures one { S.calls source.new ≤ S.calls source.old + 1 }
{
    let mut buffer = [0; PIECE];
    let room = PIECE.min(most - bytes.len());
    let Ok(()) = bytes.reserve(room) else {
        return Err(ReadFault::Memory);
    };
    let piece = &mut buffer[..room];
    let Ok(count) = source.read(piece) else {
        return Err(ReadFault::Read);
    };
    bytes.extend_from_slice(&piece[..count]).unwrap();
    Ok(count)
}

/// Reads all bytes to the end, if they are no more than the limit.
///
/// Room is reserved before each read, so that no byte is lost where memory runs out. After a
/// refusal the source has given what the reads took.
pub fn read_all<S: Source>(alloc: Global, source: &mut S, limit: u32) -> Result<List<u8>, ReadFault>
    ensures bytes { IfOk result (λ bytes. TookAll (S.left source.old) (S.left source.new) bytes) }
    ensures few { IfOk result (λ bytes. length bytes ≤ limit) }

    // Too long exactly where one byte more than the limit was taken.
    ensures long { result ≡ Err ReadFault.TooLong →
        TookExactly (S.left source.old) (S.left source.new) (limit + 1) }
    ensures short { result ≢ Err ReadFault.TooLong →
        TookAtMost (S.left source.old) (S.left source.new) limit }

    // A fault is answered only where one came, and none is passed over of a source that answers each.
    ensures read { result ≡ Err ReadFault.Read →
        Rose (S.faults source.old) (S.faults source.new) }
    ensures kept { result ≢ Err ReadFault.Read →
        Kept S.answers_each_fault (S.faults source.old) (S.faults source.new) }
    ensures later { S.faults source.old ≤ S.faults source.new }

    ensures reads { S.calls source.new ≤ S.calls source.old + limit + 2 }
{
    let most = limit as usize + 1;
    let mut bytes = Vec::new(alloc);
    while bytes.len() < most {
        if read_more(source, most, &mut bytes)? == 0 {
            return Ok(List::from_vec(bytes));
        }
    }
    Err(ReadFault::TooLong)
}
