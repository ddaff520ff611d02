//! What a closing call does to the copies: their dirty words become records, and no word is dirty any more.
ghost use Rattle.std.specs.Prelude.{◌≡◌, IfOk, IsOk, false, map, replicate};
ghost use Rattle.std.specs.Arc.{arc_value};
ghost use Rattle.base.specs.Prelude.{most_pages};
ghost use Rattle.cluster.specs.Copies.Prelude.{AreHarvestsOfCopies, CopiesToHarvestAreMarked, copy_cleaned_after_news};

use crate::copies::mark_set::MarkSet;
use crate::copies::replica::Replica;
use page::Record;
use std::alloc::{AllocError, Global};
use std::sync::Arc;

/// The records of the dirty words, one a page and by rising page, to be shared. `stored` marks each page with a dirty
/// word, and others if need be: only pages with a mark are looked at.
///
/// Takes memory only if some page is marked, and answers `AllocError` if that is refused.
pub fn harvest(
    alloc: Global,
    replicas: &[Replica],
    stored: &MarkSet,
) -> Result<Vec<Arc<Record>>, AllocError>
    requires { CopiesToHarvestAreMarked replicas.now stored.now }
    ensures harvests { IfOk result (λ records. AreHarvestsOfCopies replicas.now
        (map arc_value records.items)) }
    ensures unmarked { stored.now ≡ replicate most_pages false → IsOk result }
{
    let mut records = Vec::new(alloc);
    let mut next = 0;
    while let Some(page) = stored.first_from(next) {
        if page >= replicas.len() {
            break;
        }
        if let Some(record) = replicas[page].harvest(page)? {
            records.push(Arc::new(alloc, record)?)?;
        }
        next = page + 1;
    }
    Ok(records)
}

/// Cleans the words of all copies, and unmarks all pages. `stored` marks each page with a dirty word: only pages with a
/// mark are looked at.
pub fn clean(replicas: &mut [Replica], stored: &mut MarkSet)
    requires { CopiesToHarvestAreMarked replicas.old stored.old }
    ensures copies { replicas.new ≡ map copy_cleaned_after_news replicas.old }
    ensures marks { stored.new ≡ replicate most_pages false }
{
    let mut next = 0;
    while let Some(page) = stored.first_from(next) {
        if page >= replicas.len() {
            break;
        }
        replicas[page].clean();
        next = page + 1;
    }
    *stored = MarkSet::none();
}
