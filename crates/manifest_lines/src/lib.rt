// The line reader: it holds the lent manifest and a place in it, and hands out the lines from there on, one after another.
#![tactic(auto)]

ghost use Rattle.std.specs.Prelude.{◌≡◌};

use manifest::reader::LineAt;
use text::ByteClasses;

#[derive(Clone, Copy)]
pub struct ManifestLines<'a> {
    pub classes: &'a ByteClasses,
    pub src: &'a [u8],
    pub at: usize,
}

impl<'a> ManifestLines<'a> {
    // The lines from `at` on.
    pub fn new(classes: &'a ByteClasses, src: &'a [u8], at: usize) -> ManifestLines<'a>
        ensures src { result.src ≡ src.entry }
        ensures at { result.at ≡ at }
    {
        ManifestLines { classes, src, at }
    }
}

impl<'a> Iterator for ManifestLines<'a> {
    ghost use Rattle.manifest_lines.specs.Reader.{NextLine, lines_left};

    type Item = LineAt;

    ghost next_gives = { NextLine };

    ghost remaining = { lines_left };

    fn next(&mut self) -> Option<LineAt> {
        let line = manifest::reader::line_at(self.classes, self.src, self.at)?;
        self.at = line.next;
        Some(line)
    }
}
