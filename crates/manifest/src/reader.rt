// The line that starts at a place of a manifest.
ghost use Rattle.std.specs.Prelude.{◌≡◌};
ghost use Rattle.manifest.specs.Split.{line_at};

use text::ByteClasses;

// The line at a place: its bytes are those from start to end, where its newline stands, and next is the place after that. Places and no slice: a
// frame is read again from a place, and the definition of a line speaks of places; a slice beside them would be no plainer.
#[derive(Clone, Copy)]
pub struct LineAt {
    pub start: usize,
    pub end: usize,
    pub next: usize,
}

pub fn line_at(classes: &ByteClasses, s: &[u8], at: usize) -> Option<LineAt>
    ensures { result ≡ line_at s.now at }
{
    let rest = s.get(at..)?;
    let end = at + rest.iter().position(|b| classes.is_newline(*b))?;
    Some(LineAt {
        start: at,
        end,
        next: end + 1,
    })
}
