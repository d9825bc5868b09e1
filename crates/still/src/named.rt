// The file that the program's argument names.
use std::env::{Env, FillError};
use std::str;
use still_page::print;

// Why no file can be named by the arguments.
#[derive(Clone, Copy)]
pub enum NoName<'a> {
    // there is more than one
    More,
    // it is longer than a file's name
    TooLong,
    // it is no text
    NoText(&'a [u8]),
}

// One line: a name, which need not be text, and what is wrong with it.
fn tell_of(err: &impl Print, name: &[u8], why: &str) {
    let _ = err.write_all(name);
    print::say(err, format_args!(": {why}\n"));
}

impl NoName<'_> {
    // One line. What is no text is written as it is.
    pub fn tell(self, err: &impl Print) {
        match self {
            NoName::More => print::say(err, "usage: still [FILE.pgm]\n"),
            NoName::TooLong => tell_of(err, b"still", "File name too long"),
            NoName::NoText(name) => tell_of(err, name, "the name is no UTF-8 text"),
        }
    }
}

// The name in the buffer, if there is an argument.
pub fn name<'a>(rt: &impl Env, buf: &'a mut [u8]) -> Result<Option<&'a str>, NoName<'a>> {
    let mut more = [0; 1];
    if !matches!(rt.arg(2, &mut more), Err(FillError::NotPresent)) {
        return Err(NoName::More);
    }
    match rt.arg(1, buf) {
        Ok(n) => match str::from_utf8(&buf[..n]) {
            Ok(name) => Ok(Some(name)),
            Err(_) => Err(NoName::NoText(&buf[..n])),
        },
        Err(FillError::TooLong) => Err(NoName::TooLong),
        Err(FillError::NotPresent) => Ok(None),
    }
}
