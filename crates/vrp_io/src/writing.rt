ghost use Rattle.std.specs.Prelude.{◌≡◌, ◌+◌, ◌≤◌, [], length, OnOk, MatchResult};
ghost use Rattle.std.specs.Io.KnownBytes.{Appends};
ghost use Rattle.vrp_io.specs.Counts.{Rose, Kept};
ghost use Rattle.vrp_io.specs.Handed.{Handed, HandedUntilFault};
ghost use Rattle.vrp_io.specs.Bytes.{AppendedPrefix};

use crate::fault::WriteFault;
use crate::sink::Sink;

/// Writes all bytes. Each write is given all that are left. It takes no memory.
pub fn write_all<K: Sink>(sink: &mut K, bytes: &[u8]) -> Result<(), WriteFault>
    ensures ok { OnOk result (Appends (K.written sink.old) (K.written sink.new) bytes.now) }
    ensures prefix { AppendedPrefix (K.written sink.old) (K.written sink.new) bytes.now }

    // A fault is answered only where one came, and none is passed over of a sink that answers each.
    ensures write { result ≡ Err WriteFault.Write →
        Rose (K.faults sink.old) (K.faults sink.new) }
    ensures kept { OnOk result (Kept K.answers_each_fault (K.faults sink.old) (K.faults sink.new)) }
    ensures later { K.faults sink.old ≤ K.faults sink.new }

    // Each write is handed all that is left, up to the end or the fault.
    ensures handed { MatchResult result (λ _. Handed K.wrote sink.old bytes.now sink.new [])
        (λ _. HandedUntilFault K.wrote sink.old bytes.now sink.new) }
    ensures writes { K.calls sink.new ≤ K.calls sink.old + length bytes.now }
{
    let mut rest = bytes;
    while !rest.is_empty() {
        let Ok(count) = sink.write(rest) else {
            return Err(WriteFault::Write);
        };
        rest = &rest[count..];
    }
    Ok(())
}
