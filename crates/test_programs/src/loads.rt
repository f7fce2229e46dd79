//! `load` of an input that fails or doesn't end.
use crate::input::{add_rest, source_of};
use crate::layers::two_layers;
use crate::script::{add_line, bytes_of, left_on, runs};
use crate::streams::Streams;
use dconf_folders::{Folder, MemoryFolder};
use std::alloc::Global;
use std::test::Fail;
use test_rows::{Question, table};

/// The folder in which a run has an input, which stands before its words: `4100 1 Other; load /`.
#[derive(Drop)]
struct OnInput<'a> {
    folder: &'a mut MemoryFolder,
}

impl Question for OnInput<'_> {
    fn answer(&mut self, alloc: Global, asked: &str, found: &mut String) -> Result<(), Fail> {
        let (source, words) = asked.split_once("; ").unwrap_or((asked, ""));
        let mut streams = Streams::calm(alloc, source_of(source)?);
        let left = left_on(alloc, words, self.folder, &mut streams)?;
        add_line(&left, found)?;
        Ok(add_rest(&streams.input, found)?)
    }
}

/// The reads of this comment are of 4,096 bytes, of 4 and of none. The directory is refused before the input is read, which is
/// read no further than shows that it is too long.
const REFUSED: &str = "
4100 1 Other; load / | 1 ! error: Device input, 4100 left, 1 failed
4100 2 Other; load / | 1 ! error: Device input, 4 left, 1 failed
4100 3 Other; load / | 1 ! error: Device input, 0 left, 1 failed
1 1 Other; load / | 1 ! error: Device input, 1 left, 1 failed
4100 1 Interrupted; load / | 1 ! error: Device input, 4100 left, 1 failed
4100 2 Interrupted; load / | 1 ! error: Device input, 4 left, 1 failed
4100 3 Interrupted; load / | 1 ! error: Device input, 0 left, 1 failed
1 1 Interrupted; load / | 1 ! error: Device input, 1 left, 1 failed
4 0 Other; load a/ | 1 ! error: NotAbsolute, 4 left, 0 failed
4 0 Other; load /a | 1 ! error: NoEndSlash, 4 left, 0 failed
4 0 Other; load -f // | 1 ! error: DoubleSlash, 4 left, 0 failed
18446744073709551615 0 Other; load / | 1 ! error: input:0: TooBig, 18446744073692774398 left, 0 failed
";

const BAD_LINE: &str = "
$ load /
[a]
oops
=> 1
! error: input:2: BadLine
";

const DEVICE: &str = "
$ load /
[a]
j=1
=> 1
! error: Device profile
";

#[test]
fn looks_at_the_input_before_any_file(rt: HostRuntime) -> Result<(), Fail> {
    let alloc = rt.alloc();
    let mut folder = two_layers(alloc, "/a/k\n")?;
    let before = bytes_of(alloc, &mut folder, "me.user")?;
    folder.fail_at(1);
    table(
        alloc,
        &mut OnInput {
            folder: &mut folder,
        },
        REFUSED,
    )?;
    runs(alloc, BAD_LINE, &mut folder)?;
    // So far no call of the folder was made.
    assert_eq!(rt; folder.failures(), 0);
    runs(alloc, DEVICE, &mut folder)?;
    let after = bytes_of(alloc, &mut folder, "me.user")?;
    assert!(rt; before.as_slice() == after.as_slice());
    let calm = "4100 4 Other; load / | 0, 0 left, 0 failed";
    table(
        alloc,
        &mut OnInput {
            folder: &mut folder,
        },
        calm,
    )
}
