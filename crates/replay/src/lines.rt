// The lines of a manifest, one after another. Each function that needs room asks for it: a frame uses it up, so that a field of `Sets` would be no
// plainer.
ghost use Rattle.std.specs.Prelude.{◌≡◌, ◌≤◌, ◌∷◌, ◌+◌, ℕ, length};
ghost use Rattle.manifest.specs.Split.{lines};
ghost use Rattle.ids.specs.Limits.{most_operations, longest_manifest};
ghost use Rattle.replay.specs.Replay.{Frame, at_start, carried, line_read, lines_read};
ghost use Rattle.replay.specs.Reading.{said_from, said_at, Lies, one_more, FrameIs, OpenWithin, Carries, Ends};
ghost use Rattle.replay.specs.Sets.{state_in, RoomFor};

use crate::frame::Begun;
use crate::said::Manifest;
use crate::sets::Sets;
use ids::limits::MOST_OPERATIONS;
use ids::refusal::Refusal;
use manifest::operation::ManifestOperation;
use manifest::reader::LineAt;

// An operation on a line: outside a frame it is ignored.
fn counted(line: usize, begun: Option<Begun>) -> Result<Option<Begun>, Refusal>
    ensures { result ≡ one_more line begun }
{
    let Some(begun) = begun else {
        return Ok(None);
    };
    if MOST_OPERATIONS <= begun.count {
        return Err(Refusal::TooManyOperations(line));
    }
    Ok(Some(Begun {
        count: begun.count + 1,
        ..begun
    }))
}

// Between frames there is room for another: see `Sets`.
impl Sets {
    // One line by its number, and the frame that is open after it.
    fn read_line(
        &mut self,
        manifest: &Manifest,
        number: usize,
        line: LineAt,
        begun: Option<Begun>,
    ) -> Result<Option<Begun>, Refusal>
        requires room { RoomFor most_operations self.old }
        requires frame { OpenWithin manifest.now.src.now begun }
        requires lies { Lies manifest.now.src.now line }
        requires place { number ≤ line.next }
        ensures { (at : ℕ) (f : Frame) → said_from manifest.now.src.now at ≡ said_at manifest.now.src.now line ∷ said_from manifest.now.src.now line.next → FrameIs manifest.now.src.now at begun f
            → Carries (line_read (said_at manifest.now.src.now line) (carried (state_in self.old) f number)) manifest.now.src.now line.next (number + 1) self.new result }
    {
        let Some(operation) = manifest.said(line) else {
            return Err(Refusal::Malformed(number));
        };
        match operation {
            ManifestOperation::Begin => Ok(Some(Begun {
                place: line.next,
                line: number + 1,
                count: 0,
            })),
            ManifestOperation::End => {
                if let Some(begun) = begun {
                    self.end_frame(manifest, number, begun)?;
                }
                Ok(None)
            }
            ManifestOperation::Torn => Ok(None),
            ManifestOperation::Epoch(_) => counted(number, begun),
        }
    }

    // Internal: nothing is read yet. All complete lines, one after another.
    pub fn read(&mut self, manifest: &Manifest) -> Result<(), Refusal>
        requires start { state_in self.old ≡ at_start.state }
        requires room { RoomFor most_operations self.old }
        ensures { Ends (lines_read (lines manifest.now.src.now) at_start) self.new result }
    {
        let mut begun = None;
        for (i, line) in manifest.lines_from(0).enumerate() {
            begun = self.read_line(manifest, i + 1, line, begun)?;
        }
        Ok(())
    }
}
