//! What is measured of the cluster, of its lock and of scripts.
ghost use Rattle.std.specs.Prelude.{◌≤◌, ◌^◌};

use crate::alone::{TimedAccess, accesses, fetches, grants};
use crate::scripts::{OnScript, do_on_script};
use crate::threads::{Row, Tickets, entries, tasks};
use anyhow::Result;
use std::rt::{Clock, Files};
use std::sync::Wait;
use std::thread::Threads;
use test_crews::crews::Task;

/// Adds one to the word at address 0, under lock 0.
const ADD: Task = Task::Add {
    lock: 0,
    address: 0,
};

/// What is measured.
#[derive(Clone, Copy)]
pub enum ClusterWork {
    /// Enters and leaves of the ticket lock.
    Tickets,
    /// The same of the array lock.
    Row,
    /// A cluster of sixteen processors, each with 256 of these accesses besides.
    Accesses(TimedAccess),
    /// Ask, take and release of a free lock.
    Grant,
    /// What each thread does with its processor.
    Threads(Task),
    /// Fetches of 64 words: 960 of them, by the clock.
    Fetch,
    /// A script that is read or run.
    OnScript(OnScript),
}

impl ClusterWork {
    /// The work of this name.
    fn named(name: &str) -> Option<ClusterWork> {
        Some(match name {
            "tickets" => ClusterWork::Tickets,
            "row" => ClusterWork::Row,
            "blank" => ClusterWork::Accesses(TimedAccess::Nothing),
            "load" => ClusterWork::Accesses(TimedAccess::Load),
            "store" => ClusterWork::Accesses(TimedAccess::Store),
            "grant" => ClusterWork::Grant,
            "hand_over" => ClusterWork::Threads(ADD),
            "barrier" => ClusterWork::Threads(Task::Meet),
            "fetch" => ClusterWork::Fetch,
            "parse" => ClusterWork::OnScript(OnScript::Parse),
            "step" => ClusterWork::OnScript(OnScript::Step),
            "run" => ClusterWork::OnScript(OnScript::Run),
            _ => return None,
        })
    }
}

/// A work, how many times it is done, and by how many threads or on which file.
#[derive(Drop)]
pub struct Order<'w> {
    work: ClusterWork,
    times: usize,
    threads: usize,
    file: &'w str,
    ghost few: { (times ≤ 2 ^ 32) × (1 ≤ threads) × (threads ≤ 64) },
}

/// The work's name, how many times, and the threads or the file, which may be left out.
fn parts_of<'w>(words: &'w [String]) -> Option<(&'w str, &'w str, &'w str)> {
    match words {
        [work, times] => Some((work.as_str(), times.as_str(), "1")),
        [work, times, file] => Some((work.as_str(), times.as_str(), file.as_str())),
        _ => None,
    }
}

/// The order that these words are; None where they ask for nothing that is done.
pub fn order_of<'w>(words: &'w [String]) -> Option<Order<'w>> {
    let (work, times, file) = parts_of(words)?;
    let work = ClusterWork::named(work)?;
    let times = times.parse::<usize>().ok()?;
    let threads = file.parse::<usize>().unwrap_or(1);
    if times > 4_294_967_296 || !(1..=64).contains(&threads) {
        return None;
    }
    Some(Order {
        work,
        times,
        threads,
        file,
    })
}

/// Does the work, and answers its count.
pub fn perform<R: Files + Clock + AllocGlobal + Threads + Wait + Sync>(
    rt: &R,
    order: Order,
) -> Result<u64> {
    let alloc = rt.alloc();
    let Order {
        work,
        times,
        threads,
        file,
    } = order;
    match work {
        ClusterWork::Tickets => entries::<Tickets, R>(rt, alloc, threads, times as u64),
        ClusterWork::Row => entries::<Row, R>(rt, alloc, threads, times as u64),
        ClusterWork::Accesses(access) => accesses(alloc, access, times),
        ClusterWork::Grant => grants(rt, alloc, times),
        ClusterWork::Threads(task) => tasks(rt, alloc, threads, task, times),
        ClusterWork::Fetch => fetches(rt, alloc, times),
        ClusterWork::OnScript(work) => do_on_script(rt, work, file, times),
    }
}
