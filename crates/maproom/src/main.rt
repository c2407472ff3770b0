//! The program `maproom`: rooms in which several mappers edit one OpenStreetMap map. It calls `room_program` with its
//! arguments and the standard streams.
#![tactic(auto)]

use room_program::command::{FAILED, REFUSED, command};
use room_program::io::Io;
use std::alloc::AllocError;
use std::io::ErrorKind;
use std::process::ExitCode;

fn main(rt: HostRuntime) -> ExitCode {
    let words = match std::env::args(&rt) {
        Ok(words) => words.collect::<Vec<String>>(rt.alloc()),
        Err(error) if error.kind() == ErrorKind::InvalidData => {
            let _ = rt.eprintln("maproom: an argument is not UTF-8");
            return ExitCode::from(REFUSED);
        }
        Err(_) => Err(AllocError),
    };
    let Ok(words) = words else {
        let _ = rt.eprintln("maproom: no memory");
        return ExitCode::from(FAILED);
    };
    let mut input = Io::new(rt.reader());
    let mut output = Io::new(rt.stdout());
    let mut errors = Io::new(rt.stderr());
    let status = command(&rt, &words, &mut input, &mut output, &mut errors);
    ExitCode::from(status)
}
