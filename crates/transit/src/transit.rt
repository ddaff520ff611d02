//! The messages that were posted and not yet taken.
ghost use Rattle.std.specs.Prelude.{◌≡◌, ◌<◌, Some, None, IsTrue, IsSome, IfOk, ◌↔◌, length, replicate, slice_get};
ghost use Rattle.std.specs.Prelude.{slice_set};
ghost use Rattle.std.specs.Option.{option_map};
ghost use Rattle.transit.specs.Prelude.{Letter, letter, mail};

use crate::message::Message;
use std::alloc::{AllocError, Global};
use std::marker::Model;

/// The messages on their way, at most one for each processor.
#[derive(Drop)]
pub struct Transit {
    messages: Vec<Option<Message>>,
}

impl Model for Transit {
    ghost use Rattle.std.specs.Prelude.{Option, List, map};
    ghost use Rattle.std.specs.Option.{option_map};
    ghost use Rattle.transit.specs.Letters.{Letter, letter};

    ghost Value = { List (Option Letter) };

    ghost view = { λ t. map (option_map letter) t.messages.items };
}

impl Transit {
    /// No message, for that many processors.
    pub fn new(alloc: Global, processors: usize) -> Result<Transit, AllocError>
        ensures { IfOk result (λ t. t ≡ replicate processors None) }
    {
        let mut messages = Vec::with_capacity(alloc, processors)?;
        for _ in 0..processors {
            messages.push(None)?;
        }
        Ok(Transit { messages })
    }

    /// Sends the message to processor `p`, which has none.
    pub fn post(&mut self, p: usize, message: Message)
        requires { slice_get self.old p ≡ Some None }
        ensures { self.new ≡ slice_set self.old p (Some (letter message)) }
    {
        self.messages[p] = Some(message);
    }

    /// Whether there is a message for processor `p`.
    pub fn ready(&self, p: usize) -> bool
        requires { p < length self.now }
        ensures { IsTrue result ↔ IsSome (mail self.now p) }
    {
        self.messages[p].is_some()
    }

    /// The message for processor `p`, which stays.
    pub fn peek(&self, p: usize) -> Option<&Message>
        requires { p < length self.now }
        ensures { option_map (λ m. letter m.now) result ≡ mail self.now p }
    {
        self.messages[p].as_ref()
    }

    /// Takes the message for processor `p`, as it was posted.
    pub fn take(&mut self, p: usize) -> Option<Message>
        requires { p < length self.old }
        ensures message { option_map letter result ≡ mail self.old p }
        ensures after { self.new ≡ slice_set self.old p None }
    {
        self.messages[p].take()
    }
}
