//! What the program's words ask for.

/// What the program's words ask for.
#[derive(Clone, Copy)]
pub struct ListOptions<'w> {
    /// The ticket lock, in place of the array lock.
    pub ticket: bool,
    /// A lock with few entries.
    pub few: bool,
    /// A call that is refused memory is made once more.
    pub again: bool,
    /// Nobody looks whether a refused call left what is seen of its processor.
    pub blind: bool,
    /// The file that the list stands in.
    pub file: Option<&'w str>,
}

/// The options with one word more; None where it is none.
fn with<'w>(options: ListOptions<'w>, word: &'w str) -> Option<ListOptions<'w>> {
    let mut options = options;
    match word {
        "--ticket" => options.ticket = true,
        "--few" => options.few = true,
        "--again" => options.again = true,
        "--blind" => options.blind = true,
        _ if word.starts_with('-') || options.file.is_some() => return None,
        _ => options.file = Some(word),
    }
    Some(options)
}

/// Reads the program's words, its name first; None where they ask for nothing that it does.
pub fn options_of<'w>(words: &'w [String]) -> Option<ListOptions<'w>> {
    let mut options = ListOptions {
        ticket: false,
        few: false,
        again: false,
        blind: false,
        file: None,
    };
    for word in words.iter().skip(1) {
        options = with(options, word.as_str())?;
    }
    Some(options)
}
