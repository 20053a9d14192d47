//! The program: the words of the command line, the files of the machine and the standard streams.
#![tactic(auto)]

use kaba_base::{FileShelf, StdSink};
use kaba_top::kaba;
use std::env;
use std::io::ErrorKind;
use std::process::ExitCode;

/// Does what the command line asks for. It ends with the status that `kaba` answers, with 70
/// where there is no memory for the words, and with 72 where they cannot be had for any other
/// cause.
fn main(rt: HostRuntime) -> ExitCode {
    let alloc = rt.alloc();
    let mut words = Vec::new(alloc);
    match env::args(&rt) {
        Ok(all) => {
            for word in all.skip(1) {
                if words.push(word).is_err() {
                    return ExitCode::from(70);
                }
            }
        }
        Err(error) => {
            return ExitCode::from(if error.kind() == ErrorKind::OutOfMemory {
                70
            } else {
                72
            });
        }
    }
    let mut out = StdSink::new(rt.stdout());
    let mut err = StdSink::new(rt.stderr());
    let mut shelf = FileShelf::new(rt);
    ExitCode::from(kaba(alloc, &words, &mut shelf, &mut out, &mut err))
}
