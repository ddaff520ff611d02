//! `bench ORDER [and ORDER ..]`: does the orders in turn, each many times, and prints what each answers, so that a time
//! can be taken from outside, as the difference of two runs of different length. An order is `WORK EVENTS TIMES` of a
//! work on a journal, or `WORK TIMES [THREADS|FILE]` of one of the cluster, of its lock or of a script.
#![tactic(auto)]

mod alone;
mod cluster_work;
mod journals;
mod scripts;
mod threads;
mod work;

use crate::cluster_work::{order_of, perform};
use crate::work::{WorkAnswer, journal_order_of, measure};
use anyhow::Result;
use std::io;
use std::process::ExitCode;
use std::rt::{Clock, Files};
use std::sync::Wait;
use std::thread::Threads;

/// Prints a journal's answer.
fn print(rt: &HostRuntime, answer: WorkAnswer) -> io::Result<()> {
    match answer {
        WorkAnswer::Events(events) => println!(rt; "{events}"),
        WorkAnswer::FirstRace(None) => println!(rt; "none"),
        WorkAnswer::FirstRace(Some((first, second))) => println!(rt; "{first} {second}"),
        WorkAnswer::Replays(replays) => println!(rt; "{replays}"),
        WorkAnswer::Traffic(traffic) => {
            println!(rt;
                "{} {} {}",
                traffic.messages, traffic.records, traffic.words
            )
        }
    }
}

/// Does an order and prints its answer; false where the words are none. The handle is what threads are started by.
fn obey<R: Files + Clock + AllocGlobal + Threads + Wait + Sync>(
    rt: &HostRuntime,
    handle: &R,
    words: &[String],
) -> Result<bool> {
    if let Some(order) = journal_order_of(words) {
        print(rt, measure(rt.alloc(), order)?)?;
        return Ok(true);
    }
    let Some(order) = order_of(words) else {
        return Ok(false);
    };
    let count = perform(handle, order)?;
    println!(rt; "{count}")?;
    Ok(true)
}

/// Does the orders in turn, and answers the status.
fn obey_all<R: Files + Clock + AllocGlobal + Threads + Wait + Sync>(
    rt: &HostRuntime,
    handle: &R,
    words: &[String],
) -> Result<u8> {
    for order in words.split(|word| word.as_str() == "and") {
        if !obey(rt, handle, order)? {
            eprintln!(rt; "usage: bench WORK EVENTS TIMES | WORK TIMES [THREADS|FILE] [and ..]")?;
            return Ok(5);
        }
    }
    Ok(0)
}

fn main(rt: HostRuntime) -> Result<ExitCode> {
    let words: Vec<String> = std::env::args(&rt)?.skip(1).collect(rt.alloc())?;
    Ok(ExitCode::from(obey_all(&rt, &rt, &words)?))
}
