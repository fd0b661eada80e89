// Frames: the operations of one, read again and applied at its `E`. Each function that needs room asks for it: a frame uses it up, so that a field of
// `Sets` would be no plainer.
ghost use Rattle.std.specs.Prelude.{◌≡◌, ◌||◌, ◌≤◌, ltb, length, take};
ghost use Rattle.ids.specs.Limits.{most_tables, most_held, most_operations, longest_manifest};
ghost use Rattle.ids.specs.Results.{and_then};
ghost use Rattle.replay.specs.Replay.{limited, over_limit};
ghost use Rattle.replay.specs.Reading.{leading, said_from, Within};
ghost use Rattle.replay.specs.Sets.{state_in, RoomFor, framed_lightly, left_by};

use crate::said::Manifest;
use crate::sets::Sets;
use ids::limits::{MOST_HELD, MOST_TABLES};
use ids::refusal::Refusal;

// An open frame: the place and the number of the line after its `B`, and how many operations follow.
#[derive(Clone, Copy)]
pub struct Begun {
    pub place: usize,
    pub line: usize,
    pub count: usize,
}

// A frame has room for all its operations: see `Sets`.
impl Sets {
    // The operations of a frame, a line each: the numbers are for refusals.
    fn apply_frame(&mut self, manifest: &Manifest, begun: Begun) -> Result<(), Refusal>
        requires room { RoomFor most_operations self.old }
        requires frame { Within manifest.now.src.now begun }
        ensures { (framed_lightly begun.line (take begun.count (leading (said_from manifest.now.src.now begun.place))) (state_in self.old)) ≡ left_by result self.new }
    {
        let numbers = begun.line..begun.line + begun.count;
        for (number, line) in numbers.zip(manifest.lines_from(begun.place)) {
            let Some(change) = manifest.operation(line) else {
                return Ok(());
            };
            self.apply(number, change)?;
        }
        Ok(())
    }

    // More than the specification lets be held.
    fn over_limit(&self) -> bool
        ensures { result ≡ over_limit (state_in self.now) }
    {
        MOST_TABLES < self.tables.as_slice().len()
            || MOST_HELD < self.rowsets.as_slice().len()
            || MOST_HELD < self.vectors.as_slice().len()
    }

    // Internal: there is room for a frame. `E` on a line, where one is open.
    pub fn end_frame(
        &mut self,
        manifest: &Manifest,
        line: usize,
        begun: Begun,
    ) -> Result<(), Refusal>
        requires room { RoomFor most_operations self.old }
        requires frame { Within manifest.now.src.now begun }
        ensures { (and_then (framed_lightly begun.line (take begun.count (leading (said_from manifest.now.src.now begun.place))) (state_in self.old)) (limited line)) ≡ left_by result self.new }
    {
        self.apply_frame(manifest, begun)?;
        if self.over_limit() {
            return Err(Refusal::OverLimit(line));
        }
        Ok(())
    }
}
