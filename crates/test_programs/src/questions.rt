//! What tables and scripts ask, besides runs in a folder that they have; each is said where it is answered.
use crate::input::input_read;
use crate::turns::program_left;
use crate::words::{placed, replaced};
use std::alloc::Global;
use std::test::Fail;
use test_rows::Question;

#[derive(Clone, Copy)]
pub(crate) enum RowsOf {
    Input,
    Place,
    Program,
    Replaced,
}

impl Question for RowsOf {
    fn answer(&mut self, alloc: Global, asked: &str, found: &mut String) -> Result<(), Fail> {
        match *self {
            RowsOf::Input => input_read(alloc, asked, found),
            RowsOf::Place => placed(alloc, asked, found),
            RowsOf::Program => program_left(alloc, asked, found),
            RowsOf::Replaced => replaced(alloc, asked, found),
        }
    }
}
