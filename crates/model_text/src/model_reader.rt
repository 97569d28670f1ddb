ghost use Rattle.std.specs.Prelude.{ℕ, ◌≡◌, ◌<◌, ◌-◌, ◌^◌, List, length, IfOk, IfErr};
ghost use Rattle.route_model.specs.Parts.{ModelParts};
ghost use Rattle.model_text.specs.Spelling.{Spells};
ghost use Rattle.model_text.specs.Refusal.{IsRefusal};

use crate::draft_reader::DraftReader;
use crate::model_build::model_of;
use line_text::{ReadError, read_text};
use route_model::Model;
use std::alloc::Global;

/// The model of a text.
///
/// `Text` comes exactly where the text is not valid, with its first error: that of the first faulty line; then the
/// missing end; then, both at the line of the end, a cycle of arcs without main consumption, and the cost range. A
/// number of any length is read. Lines are read one after the other, each in one pass over its words.
pub fn read_model(alloc: Global, bytes: &[u8]) -> Result<Model, ReadError>
    requires { length bytes.now < 2 ^ 32 - 1 }
    ensures ok { IfOk result (Spells bytes.now) }
    ensures only { IfOk result (λ model. (m : ModelParts) → Spells bytes.now m → m ≡ model) }
    ensures refused { IfErr result (IsRefusal bytes.now) }
{
    let reader: DraftReader = read_text(DraftReader::new(alloc), alloc, bytes)?;
    model_of(alloc, reader.draft)
}
