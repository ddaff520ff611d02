//! Laws, as contracts of functions that do nothing: the check proves each by its name.
ghost use Rattle.lrc_script.specs.Prelude.{ScriptMostBytesLaw};

/// The text of a lawful script has at most `MOST_BYTES` bytes: a text that has one more is none.
pub fn script_most_bytes_law()
    ensures { ScriptMostBytesLaw }
{}
