//! The bells of a cluster: how processors sleep until what they wait for may have come.
//!
//! Each processor has a bell of its own, which others ring and it alone listens to. Before it sleeps it *forgets* what it
//! was told; who may have brought what it waits for *tells* it.
//!
//! **Nothing is lost between a look and a sleep**, whatever the order of steps:
//! - All looks at the book and all changes of it are made inside its lock, so they stand in one order.
//! - A processor forgets inside, in the visit in which it looks and finds nothing. It forgets nowhere else.
//! - Who changes the book so that others get on tells them after leaving. So if something has come for a processor
//!   since its look, that change was made in a later visit than its forgetting, and it is told after that: before its
//!   sleep, which then doesn't begin, since the word is compared as the sleep begins; or in its sleep, which ends.
//! - Who ends says so first, and then tells all. A processor forgets first, and then reads who has ended. So one that
//!   read too early is told after its forgetting.
//! - Who finds that nothing can come any more tells all, so that all look, find the same, and end too.
//!
//! A late tell, of a change that the processor has already found, costs a look.

use book::Waiters;
use std::alloc::{AllocError, Global};
use std::sync::Wait;
use std::sync::atomic::AtomicBool;
use std::sync::atomic::Ordering::SeqCst;
use turn::Bell;

/// A processor, which listens to its bell.
#[derive(Drop)]
struct Listener {
    bell: Bell,
    // It waits, and what it waits for has not come. It changes inside the book alone.
    waits: AtomicBool,
    // It makes no more calls.
    ended: AtomicBool,
}

impl Listener {
    /// A processor that doesn't wait.
    fn new() -> Listener {
        Listener {
            bell: Bell::new(),
            waits: AtomicBool::new(false),
            ended: AtomicBool::new(false),
        }
    }

    /// Whether the processor brings nobody on: it waits, and nothing has come, or it has ended.
    fn is_idle(&self) -> bool {
        self.waits.load(SeqCst) || self.ended.load(SeqCst)
    }
}

/// The bells of all processors, by their numbers.
#[derive(Drop)]
pub(crate) struct Bells {
    listeners: Vec<Listener>,
}

impl Bells {
    /// A bell for each processor. Answers `AllocError` if memory for them is refused.
    pub(crate) fn new(alloc: Global, processors: usize) -> Result<Bells, AllocError> {
        let mut listeners = Vec::with_capacity(alloc, processors)?;
        for _ in 0..processors {
            listeners.push(Listener::new())?;
        }
        Ok(Bells { listeners })
    }

    /// Processor `p` looked and found nothing: it forgets what it was told. Called inside the book.
    pub(crate) fn forget(&self, p: usize) {
        if let Some(listener) = self.listeners.get(p) {
            listener.waits.store(true, SeqCst);
            listener.bell.forget();
        }
    }

    /// These are ready: they wait in vain no more. Called inside the book, by the processor that let them go on.
    pub(crate) fn ready(&self, waiters: &Waiters) {
        for (p, listener) in self.listeners.iter().enumerate() {
            if waiters.has(p) {
                listener.waits.store(false, SeqCst);
            }
        }
    }

    /// Tells these. Called after leaving the book, by the processor that let them go on.
    pub(crate) fn tell(&self, waiters: &Waiters) {
        for (p, listener) in self.listeners.iter().enumerate() {
            if waiters.has(p) {
                listener.bell.tell();
            }
        }
    }

    /// Tells all processors. Called after leaving the book.
    pub(crate) fn tell_all(&self) {
        for listener in &self.listeners {
            listener.bell.tell();
        }
    }

    /// Waits until processor `p` is told. Called by its own thread, after leaving the book.
    pub(crate) fn wait<R: Wait>(&self, rt: &R, p: usize) {
        if let Some(listener) = self.listeners.get(p) {
            listener.bell.wait(rt);
        }
    }

    /// Processor `p` makes no more calls. All are told, since none may wait for it.
    pub(crate) fn end(&self, p: usize) {
        if let Some(listener) = self.listeners.get(p) {
            listener.ended.store(true, SeqCst);
        }
        self.tell_all();
    }

    /// Whether each processor waits in vain or has ended. Called inside the book.
    pub(crate) fn are_idle(&self) -> bool {
        self.listeners.iter().all(|listener| listener.is_idle())
    }
}
