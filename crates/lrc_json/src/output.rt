//! Lines of JSON, and that they are written.
ghost use Rattle.std.specs.Prelude.{◌≡◌, ◌++◌, [], ℕ, Err, IfErr, IsOk, IsOkAnd, List, None, OnOk, codes, false, string_bytes};
ghost use Rattle.std.specs.Io.KnownBytes.{Appends};
ghost use Rattle.lrc_json.specs.declared.fault.JsonFault.TheVariants.{NoMemory, Output};
ghost use Rattle.lrc_json.specs.Prelude.{IsLineAdded, IsLinePut, members_so_far};

use crate::fault::JsonFault;
use crate::members::Members;
use std::alloc::{AllocError, Global};
use std::io::Write;

/// Lines of JSON. If memory runs out, that is told at the end.
#[derive(Drop)]
pub struct JsonLines {
    alloc: Global,
    text: String,
    fault: Option<AllocError>,
}

/// Adds the object as a line.
fn put_json_output_line(
    text: &mut String,
    alloc: Global,
    members: Members,
) -> Result<(), AllocError>
    ensures { OnOk result ((members.fault ≡ None) × IsLineAdded (string_bytes text.old) (string_bytes text.new) (members_so_far members)) }
{
    let line = members.into_value()?.to_string(alloc)?;
    text.push_str(&line)?;
    text.push_str("\n")
}

/// Writes the text and flushes the writer.
fn write_json_output<W: Write>(text: &str, out: &mut W) -> Result<(), JsonFault>
    ensures written { OnOk result (Appends (W.contents out.old) (W.contents out.new) text.now) }
    ensures fault { IfErr result (λ e. e ≡ Output) }
{
    match out.write_all(text.as_bytes()) {
        Ok(()) => match out.flush() {
            Ok(()) => Ok(()),
            Err(_) => Err(JsonFault::Output),
        },
        Err(_) => Err(JsonFault::Output),
    }
}

impl JsonLines {
    /// No line.
    pub fn new(alloc: Global) -> JsonLines
        ensures { string_bytes result.text ≡ [] }
    {
        JsonLines {
            alloc,
            text: String::new(alloc),
            fault: None,
        }
    }

    /// Adds the object as a line.
    pub fn put(&mut self, members: Members)
        ensures { IsLinePut self.old self.new members }
    {
        if let Err(error) = put_json_output_line(&mut self.text, self.alloc, members) {
            self.fault = Some(error);
        }
    }

    /// Adds the object as a line, if there was memory for it.
    pub fn put_made(&mut self, members: Result<Members, AllocError>)
        ensures { self.new.fault ≡ None → IsOkAnd members (IsLinePut self.old self.new) }
    {
        match members {
            Ok(members) => self.put(members),
            Err(error) => self.fault = Some(error),
        }
    }

    /// Takes note that memory ran out, if it did.
    pub fn note(&mut self, done: Result<(), AllocError>)
        ensures { self.new.fault ≡ None → (self.old.fault ≡ None) × IsOk done × (self.new.text ≡ self.old.text) }
    {
        if let Err(error) = done {
            self.fault = Some(error);
        }
    }

    /// Writes the lines, and flushes the writer.
    ///
    /// # Errors
    ///
    /// NoMemory, after which nothing was written. After Output a beginning of the lines may be.
    pub fn write<W: Write>(&self, out: &mut W) -> Result<(), JsonFault>
        ensures written { OnOk result ((text : List ℕ) × Appends (W.contents out.old) (W.contents out.new) text) }
        ensures lines { OnOk result ((self.now.fault ≡ None) × Appends (W.contents out.old) (W.contents out.new) (string_bytes self.now.text)) }
        ensures unwritten { result ≡ Err NoMemory → W.contents out.new ≡ W.contents out.old }
    {
        match self.fault {
            None => write_json_output(&self.text, out),
            Some(error) => Err(JsonFault::from(error)),
        }
    }
}
