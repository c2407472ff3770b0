//! Answering lines.
ghost use Rattle.std.specs.Prelude.{◌≡◌, ℕ, List, IfOk};
ghost use Rattle.room_program.specs.Scripts.{Loss};

use osm_elements::Memory;
use room_wire::Scratch;
use room_wire::json_text::Json;
use std::alloc::Global;

/// An object that answers a stream line by line.
pub trait Answerer {
    /// The reply to a line, and the object after it.
    ghost answered: { Loss → Self → List ℕ → List ℕ × Self };

    /// Returns the reply to a line. `scratch` is reusable memory.
    ///
    /// # Errors
    ///
    /// `Memory`, if an allocation for the reply's text fails.
    fn answer(&mut self, alloc: Global, line: &[u8], scratch: &mut Scratch) -> Result<Json, Memory>
        ensures { IfOk result (λ text. (loss : Loss) × (answered loss self.old line.now ≡ (text, self.new))) };
}
