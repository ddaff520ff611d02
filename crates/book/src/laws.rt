//! The laws of the transitions, as contracts of functions that do nothing: the check proves each by
//! its name.
ghost use Rattle.book.specs.Prelude.{NewBookLaw, BookBlockLaw, BookLastBlockLaw, BookAskLaw, BookReleaseLaw, BookArriveLaw, BookSetLaw, BookWatchLaw};
ghost use Rattle.book.specs.Prelude.{BookTakeLaw, BookCutLaw, BookMessageLaw, BookNewsLaw, BookNewsOrderLaw};

/// An empty book represents the empty history.
pub fn new_book_law()
    ensures { NewBookLaw }
{}

/// A book that represents a history represents, after a block, the history with the block.
pub fn book_block_law()
    ensures { BookBlockLaw }
{}

/// The same of a last block, for which room was kept.
pub fn book_last_block_law()
    ensures { BookLastBlockLaw }
{}

/// The same of an ask: the block, and the ask after it.
pub fn book_ask_law()
    ensures { BookAskLaw }
{}

/// The same of a release.
pub fn book_release_law()
    ensures { BookReleaseLaw }
{}

/// The same of an arrival.
pub fn book_arrive_law()
    ensures { BookArriveLaw }
{}

/// The same of a set of a flag.
pub fn book_set_law()
    ensures { BookSetLaw }
{}

/// The same of a watch of a flag.
pub fn book_watch_law()
    ensures { BookWatchLaw }
{}

/// The same of a take, with the trim after it.
pub fn book_take_law()
    ensures { BookTakeLaw }
{}

/// A book that represents a history represents the same history after its journal was cut.
pub fn book_cut_law()
    ensures { BookCutLaw }
{}

/// What has come for a processor lets it go on, and brings it what it lacks.
pub fn book_message_law()
    ensures { BookMessageLaw }
{}

/// What a processor's taking brings it of a page is news of that page, by a message and by a flag's signal
/// alike; and what lies between any two timestamps is in closing order.
pub fn book_news_law()
    ensures news { BookNewsLaw }
    ensures in_order { BookNewsOrderLaw }
{}
