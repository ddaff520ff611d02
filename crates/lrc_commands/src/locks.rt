//! The lock round the book.
ghost use Rattle.std.specs.Prelude.{◌≡◌};
ghost use Rattle.lrc_commands.specs.Prelude.{sample_command_lock};

use conformance::LockChoice;

/// The lock that is asked for.
pub(crate) fn command_lock_of(ticket: bool) -> LockChoice
    ensures { result ≡ sample_command_lock ticket }
{
    if ticket {
        LockChoice::Ticket
    } else {
        LockChoice::Array
    }
}
