//! A program on the core: two desks write one text, which is drawn, walked through and pointed at; a third one follows; and
//! an editor shows a live document by windows.
#![tactic(auto)]

mod buffer;
mod desks;
mod editor;
mod fault;
mod meeting;
mod mouse;
mod picture;
mod walk;

use bg_types::Out;
use meeting::run;
use std::io;
use std::process::ExitCode;

/// The key of the hash tables. A program that takes operations from strangers draws it at random, so
/// that they can't choose identifiers that share a slot.
const KEY: u128 = 0;

fn main(rt: HostRuntime) -> ExitCode {
    let mut out = Out::new(io::writer(&rt));
    match run(rt.alloc(), KEY, &mut out) {
        Ok(()) => ExitCode::SUCCESS,
        Err(fault) => {
            let _unheard = rt.eprintln(fault);
            ExitCode::FAILURE
        }
    }
}
