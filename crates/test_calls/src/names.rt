//! The names in a list's lines.

/// What a line's name is.
#[derive(Clone, Copy)]
pub enum ListName {
    Acquire,
    Arrive,
    Ask,
    At,
    Audit,
    Await,
    Base,
    Book,
    Cluster,
    Count,
    Cut,
    Deadlock,
    Depart,
    Due,
    End,
    Events,
    Fetch,
    Finish,
    First,
    Flush,
    Gone,
    Holds,
    Journal,
    Load,
    Number,
    Page,
    Race,
    Release,
    Replay,
    Room,
    Set,
    Store,
    Take,
    Time,
    Traffic,
    Valid,
    Waiting,
    Watch,
}

/// How each name is written.
static NAMES: [(&str, ListName); 38] = [
    ("acquire", ListName::Acquire),
    ("arrive", ListName::Arrive),
    ("ask", ListName::Ask),
    ("at", ListName::At),
    ("audit", ListName::Audit),
    ("await", ListName::Await),
    ("base", ListName::Base),
    ("book", ListName::Book),
    ("cluster", ListName::Cluster),
    ("count", ListName::Count),
    ("cut", ListName::Cut),
    ("deadlock", ListName::Deadlock),
    ("depart", ListName::Depart),
    ("due", ListName::Due),
    ("end", ListName::End),
    ("events", ListName::Events),
    ("fetch", ListName::Fetch),
    ("finish", ListName::Finish),
    ("first", ListName::First),
    ("flush", ListName::Flush),
    ("gone", ListName::Gone),
    ("holds", ListName::Holds),
    ("journal", ListName::Journal),
    ("load", ListName::Load),
    ("number", ListName::Number),
    ("page", ListName::Page),
    ("race", ListName::Race),
    ("release", ListName::Release),
    ("replay", ListName::Replay),
    ("room", ListName::Room),
    ("set", ListName::Set),
    ("store", ListName::Store),
    ("take", ListName::Take),
    ("time", ListName::Time),
    ("traffic", ListName::Traffic),
    ("valid", ListName::Valid),
    ("waiting", ListName::Waiting),
    ("watch", ListName::Watch),
];

impl ListName {
    /// The name that is written so.
    pub fn of(word: &str) -> Option<ListName> {
        for (text, name) in &NAMES {
            if *text == word {
                return Some(*name);
            }
        }
        None
    }
}
