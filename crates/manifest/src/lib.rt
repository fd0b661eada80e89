// The manifest: its operations, one line parsed and printed, and the lines of a lent manifest.
#![tactic(auto)]

ghost use Rattle.manifest.specs.Laws.{LinesAgree};

pub mod operation;
pub mod parser;
pub mod printer;
pub mod reader;

// The laws of lines.
pub fn holds()
    ensures { LinesAgree }
{}
