//! The rows that the crates of tests ask, and the reader of their form, which is that of tests/program.d.
//!
//! A row of a table is a line: what is asked, ` | `, and the answer. A row of a script is `$ `, what is asked, which may have more
//! lines, `=> `, and the answer, which ends where the next row begins. In a table `@{9:TEXT}` stands for nine times TEXT, and a line
//! that begins with `-- ` is a comment. Blanks before a line of a table, and before an answer, don't count.
//!
//! Bytes are words: a text in single quotes, a byte in two hexadecimal digits, `%NAME` for a sample, `:9` to keep the first nine bytes
//! so far, `9=255` to set byte 9, and `~` for a byte with the number of bytes so far.
#![tactic(auto)]

mod bytes;
mod rows;
mod samples;

pub use bytes::bytes_of;
pub use rows::{Question, is_so, number, script, table};
pub use samples::sample;
