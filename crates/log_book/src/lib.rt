// The worked cases of the specification, as one proved table of facts of the definitions.
#![tactic(auto)]

ghost use Rattle.log_book.specs.LogBook.{LogBook};

// Every entry of the log book holds.
pub fn holds()
    ensures { LogBook }
{}
