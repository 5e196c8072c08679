ghost use Rattle.std.specs.Prelude.{◌≡◌, ◌++◌, IfOk, string_bytes, codes, decimal};
ghost use Rattle.replay_script.specs.Names.{fault_name};
ghost use Rattle.replay_parts.specs.Statuses.{kind_name, line_of_status, code_of_status};

use front_mirror::FrontKind;
use replay_script::{LineFault, fault_name};
use std::alloc::{AllocError, Global};

/// How a run of `inspect` ended.
#[derive(Drop)]
pub enum Status {
    /// The whole input was read and every line was carried out.
    Done,
    /// The words are of no known form. Nothing was read or written.
    Usage,
    /// The line of this number, counted from 1, was refused; the lines before it were carried out.
    Line { number: u64, fault: LineFault },
    /// The input has more than 2^26 bytes, or a line of more than 2^24 bytes. No line was carried out.
    TooLong,
    /// The source failed. No line was carried out.
    ReadFault,
    /// The sink failed.
    WriteFault,
    /// The link failed.
    LinkFault,
    /// The front end refused the message at this place of the down stream, counted from 1.
    FrontRefused { place: u64, fault: FrontKind },
    /// No id or serial was left: at least 2^28 bytes were sent up, over a link that is not honest. Or one of two clients of a page has no
    /// room for the next step.
    NoRoom,
    /// There was no memory for the run.
    Memory,
}

/// The line that tells of the status on standard error, without its end; empty for `Done`.
pub fn status_line(alloc: Global, s: &Status) -> Result<String, AllocError>
    ensures { IfOk result (λ line. string_bytes line ≡ line_of_status s.now) }
{
    match s {
        Status::Done => Ok(String::new(alloc)),
        Status::Usage => String::from_str(
            alloc,
            "usage: inspect replay, inspect serve, inspect drill N, inspect pair or inspect share",
        ),
        Status::Line { number, fault } => refused_line(alloc, *number, *fault),
        Status::TooLong => String::from_str(alloc, "input too long"),
        Status::ReadFault => String::from_str(alloc, "read fault"),
        Status::WriteFault => String::from_str(alloc, "write fault"),
        Status::LinkFault => String::from_str(alloc, "link fault"),
        Status::FrontRefused { place, fault } => refused_message(alloc, *place, *fault),
        Status::NoRoom => String::from_str(alloc, "no room"),
        Status::Memory => String::from_str(alloc, "out of memory"),
    }
}

fn refused_line(alloc: Global, number: u64, fault: LineFault) -> Result<String, AllocError>
    ensures { IfOk result (λ line. string_bytes line ≡ codes "line " ++ decimal number ++ codes ": " ++ fault_name fault) }
{
    let mut line = String::from_str(alloc, "line ")?;
    line.push_str(number.to_string(alloc)?.as_str())?;
    line.push_str(": ")?;
    line.push_str(fault_name(fault))?;
    Ok(line)
}

fn refused_message(alloc: Global, place: u64, fault: FrontKind) -> Result<String, AllocError>
    ensures { IfOk result (λ line. string_bytes line
        ≡ codes "front refused message " ++ decimal place ++ codes ": " ++ kind_name fault) }
{
    let mut line = String::from_str(alloc, "front refused message ")?;
    line.push_str(place.to_string(alloc)?.as_str())?;
    line.push_str(": ")?;
    line.push_str(kind_name(fault))?;
    Ok(line)
}

fn kind_name(fault: FrontKind) -> &'static str
    ensures { result.now ≡ kind_name fault }
{
    match fault {
        FrontKind::NotMessage => "NotMessage",
        FrontKind::UnknownNode => "UnknownNode",
        FrontKind::NotChild => "NotChild",
        FrontKind::IdTaken => "IdTaken",
        FrontKind::UnknownSheet => "UnknownSheet",
        FrontKind::TooDeep => "TooDeep",
    }
}

/// The exit status of the program.
pub fn exit_code(s: &Status) -> u8
    ensures { result ≡ code_of_status s.now }
{
    match s {
        Status::Done => 0,
        Status::Usage => 2,
        Status::Line { .. } => 3,
        Status::TooLong => 4,
        Status::ReadFault => 5,
        Status::WriteFault => 6,
        Status::LinkFault => 7,
        Status::FrontRefused { .. } => 8,
        Status::NoRoom => 10,
        Status::Memory => 9,
    }
}
