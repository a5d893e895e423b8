//! Files over memory.
use driver::{Files, ReadFault, read_opened};
use std::alloc::Global;
use std::io;
use std::io::ErrorKind;
use test_support::Script;

/// A program, an input of two bytes and suppressions, under the names `program`, `input` and `rules`. No other file is there.
#[derive(Clone, Copy)]
pub(crate) struct Shelf<'a> {
    pub(crate) program: &'a [u8],
    pub(crate) rules: &'a [u8],
}

impl Files for Shelf<'_> {
    fn read(&self, alloc: Global, path: &str, most: usize) -> Result<Vec<u8>, ReadFault> {
        match path {
            "program" => read_opened(alloc, Ok(Script::new(self.program)), most),
            "input" => read_opened(alloc, Ok(Script::new(b"ab")), most),
            "rules" => read_opened(alloc, Ok(Script::new(self.rules)), most),
            _ => read_opened::<Script<'_>>(alloc, Err(io::Error::from(ErrorKind::NotFound)), most),
        }
    }
}
