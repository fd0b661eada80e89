// Walks its input line by line and says what each complete line is: an operation is printed anew, with its length. Then some
// changes that no line says are judged.
#![tactic(auto)]

use ids::limits::LONGEST_NAME;
use ids::name::Name;
use ids::{RowsetNo, TableNo, VectorNo};
use manifest::operation::{EpochOp, ManifestOperation};
use manifest_lines::ManifestLines;
use status::Status;
use std::io;
use text::ByteClasses;

fn show_change(rt: &impl Print, change: EpochOp) -> io::Result<()> {
    let n = manifest::printer::text_length(change);
    let mut out = [0u8; 56];
    let k = manifest::printer::print(&mut out, 0, change);
    if k <= 56 {
        rt.write_all(&out[..k])?;
    }
    let classes = ByteClasses::new();
    if change.well_formed(&classes) {
        println!(rt; " {n} well formed")
    } else {
        println!(rt; " {n} not well formed")
    }
}

fn show(rt: &impl Print, classes: &ByteClasses, s: &[u8]) -> io::Result<()> {
    match manifest::parser::parse(classes, s) {
        Some(ManifestOperation::Begin) => println!(rt; "begin"),
        Some(ManifestOperation::End) => println!(rt; "end"),
        Some(ManifestOperation::Torn) => println!(rt; "torn"),
        Some(ManifestOperation::Epoch(op)) => show_change(rt, op),
        None => println!(rt; "bad"),
    }
}

// A create with the first `len` of as many bytes `a` as a name may have.
fn create(table: u32, len: usize) -> EpochOp {
    let name = Name {
        bytes: [b'a'; LONGEST_NAME],
        len,
    };
    EpochOp::CreateTable(TableNo(table), u32::MAX, name)
}

fn show_changes(rt: &impl Print) -> io::Result<()> {
    show_change(rt, create(u32::MAX - 1, LONGEST_NAME))?;
    show_change(rt, create(u32::MAX - 1, LONGEST_NAME + 1))?;
    show_change(rt, create(u32::MAX - 1, 0))?;
    show_change(rt, create(u32::MAX, 1))?;
    show_change(rt, EpochOp::DropTable(TableNo(u32::MAX)))?;
    show_change(rt, EpochOp::AddRowSet(TableNo(0), RowsetNo(u32::MAX)))?;
    show_change(rt, EpochOp::DeleteRowSet(TableNo(u32::MAX), RowsetNo(0)))?;
    show_change(
        rt,
        EpochOp::AddDV(TableNo(1), RowsetNo(2), VectorNo(u64::MAX)),
    )?;
    show_change(
        rt,
        EpochOp::DeleteDV(TableNo(1), RowsetNo(u32::MAX), VectorNo(3)),
    )?;
    show_change(
        rt,
        EpochOp::NextIds(TableNo(u32::MAX), RowsetNo(u32::MAX), VectorNo(u64::MAX)),
    )
}

// By the line reader, as a manifest is read. Its lines lie in the text; by `get` that needs no proof here.
fn show_all(rt: &impl Print, s: &[u8]) -> io::Result<()> {
    let classes = ByteClasses::new();
    for line in ManifestLines::new(&classes, s, 0) {
        let text = s.get(line.start..line.end).unwrap_or_default();
        show(rt, &classes, text)?;
    }
    Ok(())
}

fn run(rt: &impl Print, s: &[u8]) -> io::Result<()> {
    show_all(rt, s)?;
    show_changes(rt)
}

// Each program names its own room; what the mains share is `status::answered`, and one that made the buffer too would be called by a line as long,
// and be no plainer.
fn main(rt: HostRuntime) -> Status {
    let mut buffer = [0u8; 4096];
    status::answered(&rt, &mut rt.stdin(), &mut buffer, |s| run(&rt, s))
}
