//! What the command prints is written.
ghost use Rattle.std.specs.Prelude.{IfErr, OnOk};
ghost use Rattle.std.specs.Io.KnownBytes.{Appends};
ghost use Rattle.lrc_commands.specs.Prelude.{IsCommandExitStatusOfInput};

use lrc_commands::fault::CommandFault;
use lrc_program::fault::ProgramFault;
use std::io;
use std::io::Write;

/// Writes the text, and flushes the writer.
fn flush_pages_text<W: Write>(text: &[u8], out: &mut W) -> Result<(), io::Error>
    ensures { OnOk result (Appends (W.contents out.old) (W.contents out.new) text.now) }
{
    out.write_all(text)?;
    out.flush()
}

/// Writes the text, and flushes the writer; what keeps it from that is no fault of the trace.
pub(crate) fn write_pages_text<W: Write>(text: &[u8], out: &mut W) -> Result<(), CommandFault>
    ensures written { OnOk result (Appends (W.contents out.old) (W.contents out.new) text.now) }
    ensures runs { IfErr result (λ fault. IsCommandExitStatusOfInput fault → ⊥) }
{
    match flush_pages_text(text, out) {
        Ok(()) => Ok(()),
        Err(_) => Err(CommandFault::Program(ProgramFault::Output)),
    }
}
