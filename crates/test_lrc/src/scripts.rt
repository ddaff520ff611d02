//! Scripts that are printed: drawn ones, and the greatest. What is read of scripts is in `tests/texts` and `tests/sweeping`.

use lrc_script::script::{Instruction, MOST_BYTES, Script, parse};
use lrc_tester::drawing::draw::{free, guarded};
use std::alloc::{AllocError, Global};
use std::process::Abort;
use std::test::Fail;

/// The scripts of number 2^63, written by another program from the published generator. `tests/program/draw_*.case` has those of
/// lower numbers.
const GUARDED: &str = "cluster 3 2 3 1/p 0/p 1/acquire 0/add 5 6/release 0/p 2/show 0 1 2 3 4 5/";

const FREE: &str =
    "cluster 3 2 3 1/p 0/p 1/acquire 0/add 4 3/release 0/add 3 7/store 4 1/acquire 0/add 1 7/release 0/store 4 1/acquire 0/add 5 6/release 0/load 2/p 2/add 0 7/acquire 0/add 5 5/release 0/load 3/store 1 0/store 4 5/show 0 1 2 3 4 5/";

/// The bytes of a script.
fn bytes_of(alloc: Global, text: &str) -> Result<Vec<u8>, AllocError> {
    text.bytes()
        .map(|byte| if byte == b'/' { b'\n' } else { byte })
        .collect(alloc)
}

/// Whether the script's text is this one, which has a slash for each line feed.
fn has_text(alloc: Global, script: Script, wanted: &str) -> Result<bool, AllocError> {
    let text = script.to_string(alloc)?;
    Ok(text.as_bytes() == bytes_of(alloc, wanted)?.as_slice())
}

#[test]
fn the_draws_are_those_of_the_generator(rt: HostRuntime) -> Result<(), Fail> {
    let alloc = rt.alloc();
    let k = 9_223_372_036_854_775_808;
    assert!(rt; has_text(alloc, guarded(alloc, k)?, GUARDED)?);
    assert!(rt; has_text(alloc, free(alloc, k)?, FREE)?);
    Ok(())
}

/// The greatest number. A body that answers that memory ran out past another one is proved; it fails here.
const LAST: u64 = 18_446_744_073_709_551_615;

/// Whether the script is read again as it is printed.
fn is_read_again(alloc: Global, script: Script) -> Result<bool, AllocError> {
    let text = script.to_string(alloc)?;
    Ok(parse(alloc, text.as_bytes()).ok() == Some(script))
}

#[test]
fn a_script_is_drawn_from_the_last_number(rt: HostRuntime) -> Result<(), Fail> {
    let alloc = rt.alloc();
    assert!(rt; is_read_again(alloc, guarded(alloc, LAST)?)?);
    assert!(rt; is_read_again(alloc, free(alloc, LAST)?)?);
    Ok(())
}

/// The script with the longest text: as many instructions as there may be, each the longest of its kind.
fn longest(alloc: Global) -> Result<Script, AllocError> {
    let mut sections = Vec::new(alloc);
    for _ in 0..16 {
        sections.push(vec![in alloc; Instruction::Store(4095, 4_294_967_295); 10_000]?)?;
    }
    Ok(Script {
        processors: 16,
        pages: 64,
        words: 64,
        locks: 32,
        flags: 32,
        sections,
        shown: vec![in alloc; 4095; 64]?,
    })
}

/// A body that prints no more than a thousand instructions, or a megabyte, is proved; it fails here.
#[test]
fn the_longest_script_is_printed(rt: HostRuntime) -> Result<(), Fail> {
    let alloc = rt.alloc();
    assert!(rt; longest(alloc)?.to_string(alloc)?.len() == MOST_BYTES);
    assert!(rt; is_read_again(alloc, longest(alloc)?)?);
    Ok(())
}
