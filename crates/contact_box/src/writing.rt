// Writing bytes out.
ghost use Rattle.std.specs.Prelude.{IsTrue};
ghost use Rattle.std.specs.Io.KnownBytes.{Appends};

use std::io::Write;

// Writes all of the bytes at once, and answers whether it could. Where it couldn't, some of them may have been written.
// No error is handed up: a write that fails ends the session or the recording, whatever failed, so a bool says all that is used.
pub(crate) fn all<W: Write>(to: &mut W, bytes: &[u8]) -> bool
    ensures { IsTrue result → Appends (W.contents to.old) (W.contents to.new) bytes.now }
{
    to.write_all(bytes).is_ok()
}
