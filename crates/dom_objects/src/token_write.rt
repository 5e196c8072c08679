// Frames that are written token by token, by the writer that `serde_json` itself calls.
ghost use Rattle.std.specs.Prelude.{◌≡◌, ◌++◌, [], length, IsOk, IsUtf8, OnOk, OnErr};
ghost use Rattle.json.specs.Print.{print};
ghost use Rattle.pipe_frames.specs.Frames.{framed};

use json::Writer;
use std::alloc::{AllocError, Global};
use std::mem;

/// A writer of a frame behind what `out` holds, and how much that is. `end_frame` gives it back.
pub fn begin_frame(alloc: Global, out: &mut Vec<u8>) -> (Writer, usize)
    ensures before { result.0.before ≡ out.old.items }
    ensures tokens { result.0.tokens ≡ [] }
    ensures start { result.1 ≡ length out.old.items }
{
    let start = out.len();
    let held = mem::replace(out, Vec::new(alloc));
    (Writer::new(held), start)
}

/// Ends a frame with its zero byte. Where it was not written whole, what was written of it is taken back.
pub fn end_frame(
    writer: Writer,
    start: usize,
    written: Result<(), AllocError>,
    out: &mut Vec<u8>,
) -> Result<(), AllocError>
    requires { start ≡ length writer.before }
    ensures whole { OnOk result (IsOk written) }
    ensures ok { OnOk result (out.new.items ≡ writer.before ++ framed (print writer.tokens)) }
    ensures utf8 { OnOk result (IsUtf8 (print writer.tokens)) }
    ensures err { OnErr result (out.new.items ≡ writer.before) }
{
    let mut text = writer.into_inner();
    match written {
        Ok(()) => match text.push(0) {
            Ok(()) => {
                *out = text;
                Ok(())
            }
            Err(_) => {
                text.truncate(start);
                *out = text;
                Err(AllocError)
            }
        },
        Err(error) => {
            text.truncate(start);
            *out = text;
            Err(error)
        }
    }
}
