//! What a call that takes does to the copies: the records that come are missing in them from then on.
ghost use Rattle.std.specs.Prelude.{◌≡◌, ◌≤◌, IsOk, OnOk, length};
ghost use Rattle.cluster.specs.Copies.Prelude.{AreAfterNews, AreSameCopiesAfterNews, AreZerosAfterNews, CopiesHaveRoomForNews, CopiesMayLackNews};

use crate::copies::replica::Replica;
use interval::Sent;
use std::alloc::AllocError;

/// Makes room in each copy's list for as many more records as the count at the page's place says. Pages and lists are
/// as they were, whatever it answers.
///
/// Takes memory only if a count is above 0 and its room is missing, and answers `AllocError` if that is refused.
pub fn make_room_to_learn(replicas: &mut [Replica], counts: &[usize]) -> Result<(), AllocError>
    requires { length counts.now ≤ length replicas.old }
    ensures same { AreSameCopiesAfterNews replicas.old replicas.new }
    ensures ok { OnOk result (CopiesHaveRoomForNews counts.now replicas.new) }
    ensures zeros { AreZerosAfterNews counts.now → IsOk result × (replicas.new ≡ replicas.old) }
{
    for page in 0..counts.len() {
        let count = counts[page];
        if count > 0 {
            replicas[page].reserve(count)?;
        }
    }
    Ok(())
}

/// Puts each record among those that its page's copy lacks, in closing order, and closes that copy to loads and
/// stores. Takes no memory: the room was made before.
pub fn learn(replicas: &mut [Replica], notices: Vec<Sent>)
    requires { CopiesMayLackNews replicas.old notices.items }
    ensures { AreAfterNews replicas.old notices.items replicas.new }
{
    for sent in notices {
        let page = sent.notice.page;
        replicas[page].learn(sent);
    }
}
