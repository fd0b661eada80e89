// The words of a line.
ghost use Rattle.std.specs.Prelude.{length};
ghost use Rattle.std.specs.Iterator.{at_most};

// Words, each after a blank. An iterator: nothing compares two, so derives would be no plainer.
#[derive(Clone, Copy)]
pub struct Words<'a>(pub &'a [u8]);

impl<'a> Iterator for Words<'a> {
    type Item = &'a [u8];

    ghost remaining = { λ s. at_most (length s.0.now) };

    fn next(&mut self) -> Option<&'a [u8]> {
        let (_, s) = self.0.split_first()?;
        let (word, rest) = crate::cut_word(s);
        self.0 = rest;
        Some(word)
    }
}
