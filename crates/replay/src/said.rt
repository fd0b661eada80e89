// What the lines of a manifest say.
ghost use Rattle.std.specs.Prelude.{◌≡◌, ◌≤◌, length};
ghost use Rattle.std.specs.Option.{option_map};
ghost use Rattle.ids.specs.Limits.{longest_manifest};
ghost use Rattle.manifest.specs.Operations.{line_said, operation_of};
ghost use Rattle.replay.specs.Reading.{Lies, said_at, operation_on};

use manifest::operation::{EpochOp, ManifestOperation};
use manifest::reader::LineAt;
use manifest_lines::ManifestLines;
use text::ByteClasses;

// A manifest that is not too long, and the classes that its bytes are read by.
#[derive(Drop)]
pub struct Manifest<'a> {
    pub src: &'a [u8],
    pub classes: ByteClasses,
    ghost short: { length src.now ≤ longest_manifest },
}

impl<'a> Manifest<'a> {
    // Its lines from a place on. What one says is read where it is needed: lines handed out with what they say were measured to be slower.
    pub(crate) fn lines_from(&self, at: usize) -> ManifestLines<'_>
        ensures src { result.src ≡ self.now.src }
        ensures at { result.at ≡ at }
    {
        ManifestLines::new(&self.classes, self.src, at)
    }

    // What one of them says, nothing where it is none of a manifest.
    pub(crate) fn said(&self, line: LineAt) -> Option<ManifestOperation>
        requires { Lies self.now.src.now line }
        ensures { line_said result ≡ said_at self.now.src.now line }
    {
        manifest::parser::parse(&self.classes, &self.src[line.start..line.end])
    }

    // The operation that it says, if it says one.
    pub(crate) fn operation(&self, line: LineAt) -> Option<EpochOp>
        requires { Lies self.now.src.now line }
        ensures { option_map operation_of result ≡ operation_on (said_at self.now.src.now line) }
    {
        let ManifestOperation::Epoch(change) = self.said(line)? else {
            return None;
        };
        Some(change)
    }
}
