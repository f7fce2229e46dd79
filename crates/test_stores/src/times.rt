//! Which edits are overtaken, what is noted of the times of sets, and what is kept of it in a file.
use dconf_notes::{notes_read, notes_written};
use dconf_times::{DconfdbSeen, DconfdbTime, is_overtaken, moment_beside, note_seen, note_times};
use std::alloc::{AllocError, Global};
use std::fmt::Write;
use test_rows::number;

/// Notes that are written here take no more bytes.
const ROOM: usize = 1000;

/// The time of a text, as `/a/k=5`.
fn time_of(text: &str) -> DconfdbTime<'_> {
    let (path, when) = text.split_once('=').unwrap_or((text, ""));
    DconfdbTime {
        path: path.as_bytes(),
        when: u64::from(number(when)),
        value: 0,
    }
}

/// Whether an edit of this path and time is overtaken now.
pub(crate) fn overtaken(asked: &str, found: &mut String) -> Result<(), AllocError> {
    let times = [time_of("/a/k=5"), time_of("/b/=7"), time_of("/=3")];
    let (path, when) = asked.split_once(' ').unwrap_or((asked, ""));
    let (when, now) = when.split_once(' ').unwrap_or((when, ""));
    let (when, now) = (u64::from(number(when)), u64::from(number(now)));
    let is = is_overtaken(&times, path.as_bytes(), when, now);
    write!(found, "{is}")
}

pub(crate) const OVERTAKEN: &str = "
/a/k 4 9 | true
/a/k 5 9 | false
/a/k 4 4 | false
/a/kk 4 9 | false
/b/k 6 9 | true
/b/ 6 7 | true
/b/k 6 6 | false
/bk 6 9 | false
/c/d/k 2 9 | true
/c/d/k 3 9 | false
";

/// The moment of a change beside all that wait, among them the reset of `/b/`.
pub(crate) fn counted(asked: &str, found: &mut String) -> Result<(), AllocError> {
    let waiting = [
        time_of("/a/k=5"),
        time_of("/b/=7"),
        time_of("/c=7"),
        time_of("/b/k=8"),
        time_of("/bk=9"),
    ];
    let change = match asked {
        "5" => &waiting[0..1],
        "7" => &waiting[1..3],
        "8" => &waiting[3..4],
        _ => &waiting[4..5],
    };
    match moment_beside(change, &waiting, u64::from(number(asked))) {
        u64::MAX => write!(found, "now"),
        moment => write!(found, "{moment}"),
    }
}

pub(crate) const COUNTED: &str = "
5 | 5
7 | now
8 | now
9 | 9
";

/// The times of a text, as `/a/k=5 /b/=7`.
fn times_of(alloc: Global, text: &str) -> Result<Vec<DconfdbTime<'_>>, AllocError> {
    let mut times = Vec::new(alloc);
    for time in text.split_terminator(' ') {
        times.push(time_of(time))?;
    }
    Ok(times)
}

fn show_times(times: &[DconfdbTime<'_>], found: &mut String) -> Result<(), AllocError> {
    for time in times {
        let path = str::from_utf8(time.path).unwrap_or("no text");
        write!(found, " {path}={}", time.when)?;
    }
    Ok(())
}

/// What is noted of times and those of a text.
fn show_noted(
    alloc: Global,
    times: &[DconfdbTime<'_>],
    (more, limits): (&str, &str),
    found: &mut String,
) -> Result<(), AllocError> {
    let (now, most) = limits.split_once(' ').unwrap_or((limits, ""));
    let more = times_of(alloc, more)?;
    let (now, most) = (u64::from(number(now)), number(most) as usize);
    show_times(&note_times(alloc, times, &more, now, most)?, found)
}

/// What is noted of times and more of them, now and at most so many.
pub(crate) fn noted(alloc: Global, asked: &str, found: &mut String) -> Result<(), AllocError> {
    let (limits, times) = asked.split_once("; ").unwrap_or((asked, ""));
    let (times, more) = times.split_once("; ").unwrap_or((times, ""));
    let times = times_of(alloc, times)?;
    show_noted(alloc, &times, (more, limits), found)
}

pub(crate) const NOTED: &str = "
9 4; /a=1 /b=2; /c=3 /a=4 | /a=4 /b=2 /c=3
9 2; /a=1 /b=2; /c=3 /a=4 | /c=3 /a=4
3 4; /a=1 /b=2; /c=3 /a=4 | /a=1 /b=2 /c=3
0 4; /a=1 /b=2; /c=3 /a=4 |
9 0; /a=1 /b=2; /c=3 /a=4 |
9 4; /a=5; /a=4 | /a=5
";

/// What is noted where others left the value of that number at a path: `/b/` was reset, and then a key set in it.
pub(crate) fn guessed(alloc: Global, asked: &str, found: &mut String) -> Result<(), AllocError> {
    let (path, value) = asked.split_once(' ').unwrap_or((asked, ""));
    let mut notes = [time_of("/b/=4"), time_of("/b/k=6"), time_of("/b/old=2")];
    notes[1].value = 7;
    notes[2].value = 8;
    let time = DconfdbTime {
        path: path.as_bytes(),
        when: 9,
        value: u64::from(number(value)),
    };
    let seen = [DconfdbSeen {
        time,
        is_noted: false,
    }];
    show_times(&note_seen(alloc, &notes, &seen, 9, 9)?, found)
}

pub(crate) const GUESSED: &str = "
/b/k 7 | /b/=4 /b/k=6 /b/old=2
/b/k 3 | /b/=4 /b/k=9 /b/old=2
-- what was set in a directory after its reset, and went
/b/k 0 | /b/=4 /b/k=9 /b/old=2
/b/other 0 | /b/=4 /b/k=6 /b/old=2
-- what was set in it before, and came back
/b/old 0 | /b/=4 /b/k=6 /b/old=2
/b/old 8 | /b/=4 /b/k=6 /b/old=9
";

/// How many bytes a file has of these notes, and what is read of it; and whether any part of its bytes is read as notes.
fn show_kept(
    alloc: Global,
    notes: &[DconfdbTime<'_>],
    found: &mut String,
) -> Result<(), AllocError> {
    let mut room = vec![in alloc; 0; ROOM]?;
    let len = notes_written(notes, &mut room)?;
    write!(found, "{len}")?;
    let (bytes, _) = room.split_at(len.min(room.len()));
    if let Some(read) = notes_read(alloc, bytes)? {
        show_times(&read, found)?;
    }
    for len in 0..bytes.len() {
        if notes_read(alloc, &bytes[..len])?.is_some() {
            write!(found, " {len} of them too")?;
        }
    }
    Ok(())
}

/// What is kept of notes, of which the first is of the turn and says that the second is of a file that was left.
pub(crate) fn kept(alloc: Global, asked: &str, found: &mut String) -> Result<(), AllocError> {
    let mut notes = times_of(alloc, asked)?;
    if let Some(head) = notes.first_mut() {
        head.value = 1;
    }
    show_kept(alloc, &notes, found)
}

pub(crate) const KEPT: &str = "
=5 left=1 /a=4 /b=6 | 128 =5 left=1 /a=4 /b=6
-- without the file that was left, or the turn's note, it is no file
=5 | 48
x=5 left=1 | 77
";
