// Calls on delete vectors: no manager.
use crate::call::Call;
use crate::say;
use crate::say::{Digits, NO_CALL};
use delete_vector::MOST_RECORDS;
use ids::RowNo;
use ids::refusal::Refusal;
use std::io::Write;

// One more row than a vector may have, so that too many are seen.
const MOST_ROWS: usize = MOST_RECORDS + 1;

// A record has at most 7 bytes.
const FILE_BYTES: usize = 7 * MOST_RECORDS;

impl Call<'_> {
    pub fn encode(self) -> Result<(), Refusal> {
        let mut rows = [0u32; MOST_ROWS];
        let mut out = [0u8; FILE_BYTES];
        let count = self.numbers(&mut rows)?;
        let room = self.room.min(FILE_BYTES);
        let n = delete_vector::write_all(&rows[..count], &mut out[..room])?;
        let file = Digits {
            width: 2,
            bytes: &out[..n.min(FILE_BYTES)],
        };
        let _ = writeln!(self.output, "encoded,{file}");
        Ok(())
    }

    pub fn decode(self, scratch: &mut [u8]) -> Result<(), Refusal> {
        let digits = self.rest.strip_prefix(b" ").ok_or(NO_CALL)?;
        let n = script::hex(digits, scratch).ok_or(NO_CALL)?;
        let mut rows = [0u32; MOST_RECORDS];
        let room = self.room.min(MOST_RECORDS);
        let n = delete_vector::read_all(&scratch[..n], &mut rows[..room])?;
        say::list("decoded", n, rows.iter(), self.output);
        Ok(())
    }

    pub fn mask(mut self, scratch: &mut [u8]) -> Result<(), Refusal> {
        let mut rows = [0u32; MOST_ROWS];
        let offset = RowNo(self.number()?);
        let wide = script::bits(self.word()?, scratch).ok_or(NO_CALL)?;
        let count = self.numbers(&mut rows)?;
        delete_vector::apply_to(&rows[..count], &mut scratch[..wide], offset)?;
        let bits = Digits {
            width: 1,
            bytes: &scratch[..wide],
        };
        let _ = writeln!(self.output, "masked,{bits}");
        Ok(())
    }
}
