ghost use Rattle.std.specs.Prelude.{◌≡◌, ◌≢◌, ◌≤◌, ◌<◌, ◌+◌, ◌++◌, take, length, Err, OnOk, OnErr, IfOk, IsErrOf};
ghost use Rattle.std.specs.Io.KnownBytes.{Appends, Consumes, IsAtEnd};
ghost use Rattle.pipe_frames.specs.Fault.{Rose, HasCause};
ghost use Rattle.pipe_frames.specs.Whole.{IsAllOf, HasMoreThan, ReadPart, WrotePart};

use crate::outside::{OutErr, Sink, Source};
use std::alloc::Global;
use thiserror::Error;

/// Why a whole source was not read.
#[derive(Debug, Drop, Error)]
pub enum ReadErr {
    /// The source failed.
    #[error("read fault")]
    Failed,
    /// The source has more bytes than were asked for.
    #[error("input too long")]
    TooLong,
    /// There was no memory for the bytes.
    #[error("out of memory")]
    Memory,
}

// How many bytes a read asks for at most.
const PIECE: usize = 65536;

/// Reads a whole source of at most `limit` bytes, and stops as soon as one byte more came.
pub fn read_all<S: Source>(alloc: Global, src: &mut S, limit: usize) -> Result<Vec<u8>, ReadErr>
    ensures all { IfOk result (λ all. IsAllOf (S.left src.old) (S.left src.new) all.items) }
    ensures within { IfOk result (λ all. length all.items ≤ limit) }
    ensures too_long { IsErrOf result ReadErr.TooLong → HasMoreThan (S.left src.old) limit }
    ensures later { S.faults src.old ≤ S.faults src.new }
    ensures failed { IsErrOf result ReadErr.Failed → Rose (S.faults src.old) (S.faults src.new) }
    ensures answered { S.faults src.old < S.faults src.new → IsErrOf result ReadErr.Failed }
    ensures part { ReadPart (S.left src.old) (S.left src.new) (limit + 1) }
{
    let mut buf = zeros(alloc, PIECE)?;
    read_by(alloc, src, buf.as_mut_slice(), limit)
}

// `read_all`, by reads into `buf`.
fn read_by<S: Source>(
    alloc: Global,
    src: &mut S,
    buf: &mut [u8],
    limit: usize,
) -> Result<Vec<u8>, ReadErr>
    requires { 0 < length buf.old }
    ensures all { IfOk result (λ all. IsAllOf (S.left src.old) (S.left src.new) all.items) }
    ensures within { IfOk result (λ all. length all.items ≤ limit) }
    ensures too_long { IsErrOf result ReadErr.TooLong → HasMoreThan (S.left src.old) limit }
    ensures later { S.faults src.old ≤ S.faults src.new }
    ensures failed { IsErrOf result ReadErr.Failed → Rose (S.faults src.old) (S.faults src.new) }
    ensures answered { S.faults src.old < S.faults src.new → IsErrOf result ReadErr.Failed }
    ensures part { ReadPart (S.left src.old) (S.left src.new) (limit + 1) }
{
    let mut all = Vec::new(alloc);
    while all.len() <= limit {
        let room = buf.len().min((limit - all.len()).saturating_add(1));
        match read_more(src, &mut buf[..room], &mut all) {
            Ok(0) => return Ok(all),
            Ok(_) => {}
            Err(err) => return Err(err),
        }
    }
    Err(ReadErr::TooLong)
}

fn zeros(alloc: Global, size: usize) -> Result<Vec<u8>, ReadErr>
    ensures size { IfOk result (λ bytes. length bytes.items ≡ size) }
    ensures memory { OnErr result (result ≡ Err ReadErr.Memory) }
{
    match vec![in alloc; 0; size] {
        Ok(bytes) => Ok(bytes),
        Err(_) => Err(ReadErr::Memory),
    }
}

// Reads once, into `buf`, and appends what came. 0 is the end.
fn read_more<S: Source>(src: &mut S, buf: &mut [u8], all: &mut Vec<u8>) -> Result<usize, ReadErr>
    requires { 0 < length buf.old }
    ensures bound { IfOk result (λ n. n ≤ length buf.new) }
    ensures bytes { IfOk result (λ n. Consumes (S.left src.old) (S.left src.new) (take n buf.new)) }
    ensures joined { IfOk result (λ n. all.new.items ≡ all.old.items ++ take n buf.new) }
    ensures end { IfOk result (λ n. n ≡ 0 → IsAtEnd (S.left src.new)) }
    ensures part { OnErr result (ReadPart (S.left src.old) (S.left src.new) (length buf.new)) }
    ensures later { S.faults src.old ≤ S.faults src.new }
    ensures failed { IsErrOf result ReadErr.Failed → Rose (S.faults src.old) (S.faults src.new) }
    ensures answered { S.faults src.old < S.faults src.new → IsErrOf result ReadErr.Failed }
    ensures never { result ≢ Err ReadErr.TooLong }
{
    match src.read(buf) {
        Ok(count) => match all.extend_from_slice(&buf[..count]) {
            Ok(()) => Ok(count),
            Err(_) => Err(ReadErr::Memory),
        },
        Err(_) => Err(ReadErr::Failed),
    }
}

/// Writes a whole piece. After an error a front part of the piece was taken.
pub fn write_all<K: Sink>(out: &mut K, piece: &[u8]) -> Result<(), OutErr>
    ensures ok { OnOk result (Appends (K.taken out.old) (K.taken out.new) piece.now) }
    ensures err { OnErr result (WrotePart (K.taken out.old) (K.taken out.new) piece.now) }
    ensures cause { HasCause (K.faults out.old) (K.faults out.new) result }
{
    let mut rest = piece;
    while !rest.is_empty() {
        match out.write(rest) {
            Ok(count) => rest = rest.split_at(count).1,
            Err(err) => return Err(err),
        }
    }
    Ok(())
}
