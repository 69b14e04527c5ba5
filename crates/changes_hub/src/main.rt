//! A hub of document databases, over standard input and output, or over TCP.
#![tactic(auto)]

mod answering;
mod command;
#[cfg(test)]
mod tests;

use answering::answer;
use command::Command;
use hub_document::Limits;
use hub_http::{Buffered, Requests, Tally};
use hub_server::{Uptime, run_server};
use hub_shared::{Gate, Point};
use std::alloc::Global;
use std::net::{Net, TcpListener, TcpStream};
use std::process::ExitCode;
use std::sync::Wait;
use std::thread::Threads;
use std::time::Clock;
use std::{env, io};

/// The words of the command line, without the program's own name.
fn words(rt: &HostRuntime) -> io::Result<Vec<String>> {
    let mut args = env::args(rt)?;
    let _program = args.next();
    let mut words = Vec::new(rt.alloc());
    for word in args {
        words.push(word)?;
    }
    Ok(words)
}

/// A gate that holds nobody.
#[derive(Drop)]
struct OpenGate;

impl Gate for OpenGate {
    fn pass(&self, _point: Point) {}
}

/// Serves connections at an address, which is told on standard output once it is bound.
fn serve<R>(rt: &R, alloc: Global, address: &str, count: u64) -> io::Result<()>
where
    R: Threads
        + Wait
        + Clock
        + Net<Listener = TcpListener, Stream = TcpStream>
        + Print
        + Copy
        + Send
        + Sync
        + Drop
        + 'static,
{
    let listener = TcpListener::bind(rt, address)?;
    println!(rt; "listening on {}", listener.local_addr()?)?;
    let clock = Uptime::new(*rt)?;
    run_server(rt, alloc, &listener, count, OpenGate, clock, Limits::full())
}

fn main(rt: HostRuntime) -> io::Result<ExitCode> {
    match Command::read(words(&rt)?) {
        Some(Command::Stdin) => {
            let mut requests = Requests::new(rt.alloc(), Tally::new(rt.stdin()));
            let mut output = Buffered::new(rt.alloc(), rt.stdout());
            answer(&rt, rt.alloc(), &mut requests, &mut output)
        }
        Some(Command::Serve { address, count }) => {
            match serve(&rt, rt.alloc(), address.as_str(), count) {
                Ok(()) => Ok(ExitCode::SUCCESS),
                Err(_) => Ok(ExitCode::FAILURE),
            }
        }
        None => {
            eprintln!(rt; "usage: changes_hub stdin | serve ADDRESS COUNT")?;
            Ok(ExitCode::from(2))
        }
    }
}
