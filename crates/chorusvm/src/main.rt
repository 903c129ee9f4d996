//! The program `chorusvm`: it replays a script of actors on standard input, and writes the replies
//! to standard output; or it writes the script that a number makes, or the summary of its replay.
//!
//! It is the top of the layers, and has no model of its own: what it answers is said by the
//! contract of the one call that it makes, `replay::run`. It makes it where standard output is
//! open. Here stand only the words that are given, the stack that is taken, and what is told of a run
//! that isn't done; the streams and the files of a folder are put under the call by their adapters
//! (`host_adapters`). The words name the folder, which is the working folder where they don't, and
//! the size of a page. In the folder the file `seg.N` is segment N, and the swap area is made there.
#![tactic(auto)]

mod fault;
mod stack;
#[cfg(test)]
mod tests;

use fault::Fault;
use host_adapters::{FileMapper, StreamSink, StreamSource, tell};
use replay::{Status, folder, page_size, run};
use stack::take_stack;
use std::env;
use std::io::ErrorKind;
use std::os::fd::AsFd;
use std::process::ExitCode;
use vm_port::{Clock, Rotor};

// The words behind the program's name. Words that can't be had as text ask for nothing.
fn words_given(rt: &HostRuntime) -> Result<Vec<String>, Status> {
    let given = match env::args(rt) {
        Ok(given) => given,
        Err(e) if e.kind() == ErrorKind::OutOfMemory => return Err(Status::NoMemory),
        Err(_) => return Err(Status::Usage),
    };
    let mut words = Vec::new(rt.alloc());
    for word in given.skip(1) {
        if words.push(word).is_err() {
            return Err(Status::NoMemory);
        }
    }
    Ok(words)
}

// Whether standard output is open. Where it isn't, nothing is carried out: nobody would get the
// replies.
fn has_output(rt: &HostRuntime) -> bool {
    let output = rt.stdout();
    output.as_fd().try_clone_to_owned().is_ok()
}

// Runs these words over standard input and output.
fn run_words(rt: &HostRuntime, words: &[String]) -> Status {
    if !has_output(rt) {
        return Status::SinkFault;
    }
    let mut texts = Vec::new(rt.alloc());
    for word in words {
        if texts.push(word.as_str()).is_err() {
            return Status::NoMemory;
        }
    }
    let mut source = StreamSource::new(rt.stdin(), rt);
    let mut sink = StreamSink::new(rt.stdout(), rt);
    let Ok(mut mapper) = FileMapper::new(rt, rt.alloc(), folder(&texts), page_size(&texts)) else {
        return Status::NoMemory;
    };
    let mut chooser = Clock::new();
    run(
        rt.alloc(),
        &texts,
        &mut source,
        &mut sink,
        &mut mapper,
        &mut chooser,
        &mut Rotor::new(),
    )
}

// Runs the words that were given, with the stack that this takes.
fn run_given(rt: &HostRuntime) -> Status {
    if take_stack(rt).is_err() {
        return Status::NoMemory;
    }
    match words_given(rt) {
        Ok(words) => run_words(rt, &words),
        Err(status) => status,
    }
}

fn main(rt: HostRuntime) -> ExitCode {
    let status = run_given(&rt);
    if let Some(fault) = Fault::of(status) {
        tell(&rt, fault);
    }
    ExitCode::from(status.code())
}
