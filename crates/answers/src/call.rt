// A line that is a call.
ghost use Rattle.std.specs.Prelude.{◌≡◌, ◌≤◌, IfOk, eqb, is_ok, length};

use crate::output::Output;
use crate::say;
use crate::say::NO_CALL;
use ids::limits::MOST_HELD;
use ids::refusal::Refusal;
use script::words::Words;

#[derive(Drop)]
pub struct Call<'a> {
    // The rest of the line, after the words that were read.
    pub rest: &'a [u8],
    // The room that each output has.
    pub room: usize,
    // Where it is answered.
    pub output: &'a mut Output,
}

impl<'a> Call<'a> {
    pub fn word(&mut self) -> Result<&'a [u8], Refusal> {
        let mut words = Words(self.rest);
        let word = words.next().ok_or(NO_CALL)?;
        self.rest = words.0;
        Ok(word)
    }

    // The next word, as a number that fits.
    pub fn number<T: TryFrom<u64>>(&mut self) -> Result<T, Refusal>
    where
        T::Error: Drop,
    {
        let word = self.word()?;
        script::number(word).ok_or(NO_CALL)
    }

    // The only word that is left, as such a number.
    pub fn one<T: TryFrom<u64>>(&self) -> Result<T, Refusal>
    where
        T::Error: Drop,
    {
        script::one(self.rest).ok_or(NO_CALL)
    }

    // Reads the other words, all numbers, into `out`; answers how many of its places they fill.
    pub fn numbers(&self, out: &mut [u32]) -> Result<usize, Refusal>
        ensures { IfOk result (λ n. n ≤ length out.new) }
    {
        let n = script::numbers(self.rest, out).ok_or(NO_CALL)?;
        Ok(n.min(out.len()))
    }

    // Internal. A word and a list of pairs, which `fill` writes to columns of the call's room.
    // Rattle asks for this clause of each function that calls a closure, so that no other form is plainer.
    pub fn pairs<F: FnOnce(&mut [u32], &mut [u32]) -> Result<usize, Refusal> + Drop>(
        self,
        word: &str,
        fill: F,
    ) -> Result<(), Refusal>
        requires { F.IsAlwaysCallable fill }
    {
        let mut tables = [0u32; MOST_HELD];
        let mut rowsets = [0u32; MOST_HELD];
        let n = self.room.min(MOST_HELD);
        let n = fill(&mut tables[..n], &mut rowsets[..n])?;
        say::list(word, n, tables.iter().zip(&rowsets), self.output);
        Ok(())
    }

    // No more words.
    pub fn alone(&self) -> Result<(), Refusal>
        ensures { is_ok result ≡ eqb (length self.now.rest.now) 0 }
    {
        if self.rest.is_empty() {
            Ok(())
        } else {
            Err(NO_CALL)
        }
    }
}
