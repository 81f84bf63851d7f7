//! The words of the command line.

use std::io::ErrorKind;
use std::rt::Env;
use std::{env, io};

/// The words of the command line, without the program's name. A word that isn't UTF-8 is none that
/// a program here knows, and there are then no words.
pub fn words_of(rt: &(impl Env + AllocGlobal)) -> io::Result<Vec<String>> {
    match env::args(rt) {
        Ok(words) => Ok(words.skip(1).collect(rt.alloc())?),
        Err(error) if error.kind() == ErrorKind::InvalidData => Ok(Vec::new(rt.alloc())),
        Err(error) => Err(error),
    }
}
