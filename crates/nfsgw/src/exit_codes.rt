// The exit code of a command, and what is said of how it ended.
ghost use Rattle.std.specs.Prelude.{◌≡◌, ◌++◌, IfOk, OnOk, codes, string_bytes};
ghost use Rattle.nfsgw.specs.ExitCodes.{code_of, text_of, line_number};

use gw_model::NoMemory;
use replay::Status;
use std::alloc::{AllocError, Global};
use std::fmt::Write;

/// The exit code of a status.
pub fn exit_code(status: &Status) -> u8
    ensures { result ≡ code_of status.now }
{
    match status {
        Status::Done => 0,
        Status::Usage => 2,
        Status::NoMemory => 3,
        Status::ReadFault => 4,
        Status::WriteFault => 5,
        Status::BadLine(_) => 6,
        Status::StoreFault => 7,
        Status::BadConfig(_) => 8,
    }
}

#[tactic(auto, unfolding(crate::specs::ExitCodes::line_number))]
fn push_line_number(out: &mut String, line: u64) -> Result<(), AllocError>
    ensures { OnOk result (string_bytes out.new ≡ string_bytes out.old ++ line_number line) }
{
    write!(out, "line {line}")
}

fn bad_line(alloc: Global, line: u64) -> Result<String, AllocError>
    ensures { IfOk result (λ text. string_bytes text ≡ codes "nfsgw: " ++ line_number line ++ codes ": not a transcript line") }
{
    let mut out = String::from_str(alloc, "nfsgw: ")?;
    push_line_number(&mut out, line)?;
    out.push_str(": not a transcript line")?;
    Ok(out)
}

fn text_of_status(alloc: Global, status: &Status) -> Result<String, AllocError>
    ensures { IfOk result (λ text. string_bytes text ≡ text_of status.now) }
{
    match status {
        Status::Done => Ok(String::new(alloc)),
        Status::Usage => String::from_str(alloc, "nfsgw: usage"),
        Status::NoMemory => String::from_str(alloc, "nfsgw: out of memory"),
        Status::ReadFault => String::from_str(alloc, "nfsgw: read fault"),
        Status::WriteFault => String::from_str(alloc, "nfsgw: write fault"),
        Status::BadLine(line) => bad_line(alloc, *line),
        Status::StoreFault => String::from_str(alloc, "nfsgw: store fault"),
        Status::BadConfig(_) => String::from_str(alloc, "nfsgw: bad configuration"),
    }
}

/// What is said of a status, without a line feed. It is empty where the command is done. Takes memory.
pub fn status_text(alloc: Global, status: &Status) -> Result<Vec<u8>, NoMemory>
    ensures { IfOk result (λ text. text.items ≡ text_of status.now) }
{
    match text_of_status(alloc, status) {
        Ok(text) => Ok(text.into_bytes()),
        Err(_) => Err(NoMemory),
    }
}
