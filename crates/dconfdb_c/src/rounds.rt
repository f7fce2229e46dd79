//! What is done next by who writes what waits, by who has it written, or ends, or wants to know that it is on the disk, by who looks at an open
//! store's files, and by who tells what is seen otherwise.
ghost use Rattle.std.specs.Prelude.{◌≡◌};
ghost use Rattle.dconf_rounds.specs.Backends.{priority};
ghost use Rattle.dconf_rounds.specs.Glances.{glance_after, glance_number};
ghost use Rattle.dconf_rounds.specs.Rounds.{has_work, is_at_work, is_open, task_after, task_number};
ghost use Rattle.dconf_rounds.specs.Syncs.{has_looked_since};
ghost use Rattle.dconf_rounds.specs.Telling.{asks_context, handed, handed_number, tell_next, telling_number};
ghost use Rattle.dconf_rounds.specs.Writers.{writer_number};

use dconf_rounds::{
    GlanceKnown, Known, TellKnown, WriterKnown, WritingKnown, asks_context, glance_number,
    handed_number, has_looked_since, has_work, is_at_work, is_open, priority, task_number,
    telling_number, writer_number,
};

/// Whether what was begun in one process is at work in this one: it has not ended, and this is no child of that process by fork().
#[unsafe(no_mangle)]
pub extern "C" fn dconfdb_is_at_work(has_ended: bool, begun_in: u32, process: u32) -> bool
    ensures { result ≡ is_at_work has_ended begun_in process }
{
    is_at_work(has_ended, begun_in, process)
}

/// Whether somebody may write in the user's database: there is one; and who sets something is at work, or who writes doesn't find it closed to this program.
#[unsafe(no_mangle)]
pub extern "C" fn dconfdb_is_open(known: &WritingKnown) -> bool
    ensures { result ≡ is_open known.now }
{
    is_open(known)
}

/// Whether the thread writes, or is to try again, or waits for its turn: as long as it does, the program's end waits for it.
#[unsafe(no_mangle)]
pub extern "C" fn dconfdb_has_work(known: &Known) -> bool
    ensures { result ≡ has_work known.now }
{
    has_work(known)
}

/// What the thread that writes does next, once the first `done` tasks of a round were done, or were not due: 1 it tells, 2 watches, 3
/// looks, 4 takes its turn, 5 writes, 6 leaves the line, 7 rests, 8 ends, 9 ends and gives up what waits.
#[unsafe(no_mangle)]
pub extern "C" fn dconfdb_round_after(done: u32, known: &Known) -> u32
    ensures { result ≡ task_number (task_after done known.now) }
{
    task_number(done, known)
}

/// What is done next about what waits, in the same way, by the answer to the last task. Of something new (`what` 0): 1 that is made by which a thread
/// is woken, 2 the thread is begun, 3 woken, 4 it is done here, 5 over. Of who comes to its turn (1): 1 it is asked for, 2 a thread begun that waits
/// for it, 3 that one asked, 4 it is waited for by who has no thread; 5 it is had, 6 waited for in line, 7 to be asked for again. At the end (2): 1
/// it is said, 2 rounds are made, 3 the thread is waited for, 4 all that waits, 5 the thread as long as the program goes on, 6 it is left alone, 7
/// taken away, 8 it is counted, 9 told what waits, 10 that nobody knows; 11 all is done, 12 the thread has it. Of who wants to know that all is on
/// the disk (else): 1 asks for a try, 2 writes, 3 waits, 4 takes its turn, 5 looks, 6 settles; 7 it is told yes, 8 no. A child of fork() has nothing
/// that waits.
#[unsafe(no_mangle)]
pub extern "C" fn dconfdb_writer_after(
    what: u32,
    done: u32,
    is_so: bool,
    known: &WriterKnown,
) -> u32
    ensures { result ≡ writer_number what done is_so known.now }
{
    writer_number(what, done, is_so, known)
}

/// What whoever looks at the files does next, in the same way: 1 refreshes what is open, 2 opens it anew, 3 the same, but the profiles look
/// like those that were read; 4 hands out what is the newest, 5 heeds what others changed, 6 has the files watched, 7 settles what waits and is
/// there, 8 asks for the turn again; 9 has seen them, 10 failed.
#[unsafe(no_mangle)]
pub extern "C" fn dconfdb_glance_after(done: u32, known: &GlanceKnown) -> u32
    ensures { result ≡ glance_number (glance_after done known.now) }
{
    glance_number(done, known)
}

/// What whoever tells does with the next path that is seen otherwise: 0 nothing, 1 takes it for the next notice, 2 tells what was taken, and
/// then takes it, 3 tells what was taken, 4 tells all. Between two lists it is said which comes next: 5 whoever else tells of the files looks at
/// them, 6 of what may be written, 7 of what is seen, 8 of faults, each a warning, 9 the same, but printed, 10 none.
#[unsafe(no_mangle)]
pub extern "C" fn dconfdb_tell_next(known: &TellKnown) -> u32
    ensures { result ≡ telling_number (tell_next known.now) }
{
    telling_number(known)
}

/// What becomes of the paths that are seen otherwise than what was told last: 0 they couldn't be handed out, so that what was told still is, and the files
/// are looked at again; 1 they were, and what is the newest was told, but nobody looked at the files, which are looked at again; 2 they were, and the files
/// were looked at.
#[unsafe(no_mangle)]
pub extern "C" fn dconfdb_handed(has_paths: bool, has_looked: bool) -> u32
    ensures { result ≡ handed_number (handed has_paths has_looked) }
{
    handed_number(has_paths, has_looked)
}

/// Whether the main context of somebody who listens is asked to say that it turns.
#[unsafe(no_mangle)]
pub extern "C" fn dconfdb_asks_context(has_turned: bool, is_asked: bool) -> bool
    ensures { result ≡ asks_context has_turned is_asked }
{
    asks_context(has_turned, is_asked)
}

/// Whether the files were looked at since a sync was asked for, by a look that began after that: `begun` looks had begun by then, and `last` is the number of
/// the last one that succeeded.
#[unsafe(no_mangle)]
pub extern "C" fn dconfdb_has_looked_since(begun: u64, last: u64) -> bool
    ensures { result ≡ has_looked_since begun last }
{
    has_looked_since(begun, last)
}

/// GIO's priority of the module's backend: in front of dconf's, if an administrator's file makes it the default, and else behind all others.
#[unsafe(no_mangle)]
pub extern "C" fn dconfdb_priority(is_default: bool) -> u32
    ensures { result ≡ priority is_default }
{
    priority(is_default)
}
