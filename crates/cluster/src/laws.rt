//! Laws, as contracts of functions that do nothing: the check proves each by its name.
ghost use Rattle.std.specs.Prelude.{◌≡◌, ◌^◌, ◌∷◌, []};
ghost use Rattle.cluster.specs.Prelude.{ClusterAllowedLaw, ClusterFromBaseLaw, ClusterLeftLaw, ClusterSeenLaw};

use crate::keeper::{BookLock, Rule, TicketBookLock};
use book::Book;
use turn::Turn;

/// Whenever the lock is free, the longest that a processor has seen is the whole history, all events cut off and then
/// the journal's, and what each other has seen is a prefix of it.
pub fn cluster_seen_law()
    ensures { ClusterSeenLaw }
{}

/// An access changes nothing of which journals the book may have: so by `allowed` of each call that enters, from the
/// start on there is always one, and what `covers` says of all of them is said of something.
pub fn cluster_allowed_law()
    ensures { ClusterAllowedLaw }
{}

/// What `covers` says of a valid copy by the whole history, it says by the journal from what was kept at its cut, once
/// the processor has departed since.
pub fn cluster_from_base_law()
    ensures { ClusterFromBaseLaw }
{}

/// What an audit or the end answers has from its base all that the whole history has: so a reader of the journal needs
/// nothing of what was cut off.
pub fn cluster_left_law()
    ensures { ClusterLeftLaw }
{}

/// How often a processor may enter the book, with the array lock and with the ticket lock.
pub fn cluster_entries_law() -> [u64; 2]
    ensures { result ≡ 2 ^ 40 ∷ 2 ^ 40 ∷ [] }
{
    [
        <BookLock as Turn<Book, Rule>>::ENTRIES,
        <TicketBookLock as Turn<Book, Rule>>::ENTRIES,
    ]
}
