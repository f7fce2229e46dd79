//! What is watched of the names on the way to a file, and what is heard of them.
ghost use Rattle.std.specs.Prelude.{◌≡◌, ◌≢◌};
ghost use Rattle.dconf_watches.specs.Events.{asked_anew, heard_if, louder, meaning};
ghost use Rattle.dconf_watches.specs.Flags.{flag_after, flag_number};
ghost use Rattle.dconf_watches.specs.Inotify.{event_in, is_file_missed, seen_by};
ghost use Rattle.dconf_watches.specs.Names.{is_lenient, keeps_profile, minds_much, watches_store};
ghost use Rattle.dconf_watches.specs.Numbers.{IsWatchedName, heard_number, heard_of, name_watch_of, of_what};
ghost use Rattle.dconf_watches.specs.Rounds.{after_number, after_round, begun, gone_through, rounds_of, sight_of};

use dconf_watches::{
    Sight, WatchRounds, WatchedName, asked_anew_number, flag_number, heard_number, is_file_missed,
    is_lenient, keeps_profile, minds_much, watched_name, watches_store,
};

/// Whether who watches minds much that happens: 0 the library's caller, 1 the module, 2 libdconf, 3 the command, 4 the service.
#[unsafe(no_mangle)]
pub extern "C" fn dconfdb_minds_much(who: u32) -> bool
    ensures { result ≡ minds_much who }
{
    minds_much(who)
}

/// Whether the profile of a store that is open counts as it was read, for the same.
#[unsafe(no_mangle)]
pub extern "C" fn dconfdb_keeps_profile(who: u32) -> bool
    ensures { result ≡ keeps_profile who }
{
    keeps_profile(who)
}

/// Whether the files are watched that a store has which is open, by the same; else those that the store at its place has now.
#[unsafe(no_mangle)]
pub extern "C" fn dconfdb_watches_store(who: u32, is_open: bool) -> bool
    ensures { result ≡ watches_store who is_open }
{
    watches_store(who, is_open)
}

/// Whether a store is opened past its bad files, by the same: `is_asked` by the library's caller, or `lists`, as it is opened for the names of its files.
#[unsafe(no_mangle)]
pub extern "C" fn dconfdb_is_lenient(who: u32, is_asked: bool, lists: bool) -> bool
    ensures { result ≡ is_lenient who is_asked lists }
{
    is_lenient(who, is_asked, lists)
}

/// What is watched of a name in that folder, which is no link; the root's path is empty. `is_last`: it is the path's last name. `mode` and
/// `links` are what stat says of what stands there, 0 where nothing does; unless it can't be seen, or not where a link leads. `minds` who minds much that happens. So many links were followed on the way.
/// `is_profile`: if the file changes other files may be the store's.
#[unsafe(no_mangle)]
pub extern "C" fn dconfdb_watched_name(
    minds: bool,
    folder: &[u8],
    name: &[u8],
    is_last: bool,
    is_unseen: bool,
    mode: u32,
    links: u64,
    followed: u64,
    is_profile: bool,
    watched: &mut WatchedName,
)
    ensures { IsWatchedName watched.new minds folder.now name.now is_last is_unseen mode links followed is_profile }
{
    *watched = watched_name(
        minds, folder, name, is_last, is_unseen, mode, links, followed, is_profile,
    );
}

/// Takes that a round begins in which the names of all files are gone through (`what` 0), or what became of a name: it was watched so already (`is_known`), or
/// could be watched (`is_had`), or can't be; then something may be missed without it (`is_needed`). Given is what comes after the round: 0 another one, 1 all
/// is watched, 2 not all is.
#[unsafe(no_mangle)]
pub extern "C" fn dconfdb_watch_round(
    rounds: &mut WatchRounds,
    what: u32,
    is_known: bool,
    is_had: bool,
    is_needed: bool,
) -> u32
    ensures begun { what ≡ 0 → rounds_of rounds.new ≡ begun (rounds_of rounds.old) }
    ensures name { what ≢ 0 → rounds_of rounds.new ≡ gone_through (rounds_of rounds.old) (sight_of is_known is_had is_needed) }
    ensures after { result ≡ after_number (after_round (rounds_of rounds.new)) }
{
    if what == 0 {
        rounds.begin();
    } else {
        rounds.go_through(Sight::of(is_known, is_had, is_needed));
    }
    rounds.after().number()
}

/// What inotify is asked for of the file itself that has the name by now, after an event of that mask: 0 is nothing. The event is of the file's own watch
/// (`of_file`), or of its folder's, and has a name or not, which is that one or not; `mode` and `links` are of what stands there by now, unless that can't be
/// seen.
#[unsafe(no_mangle)]
pub extern "C" fn dconfdb_asked_anew(
    watch: u32,
    mask: u32,
    of_file: bool,
    has_name: bool,
    is_same: bool,
    is_unseen: bool,
    mode: u32,
    links: u64,
) -> u32
    ensures { result ≡ asked_anew (name_watch_of watch) (event_in mask) (of_what of_file has_name is_same) (seen_by is_unseen mode links) }
{
    asked_anew_number(
        watch, mask, of_file, has_name, is_same, is_unseen, mode, links,
    )
}

/// Whether something is missed if the file itself can't be watched, by the errno; 0 is none.
#[unsafe(no_mangle)]
pub extern "C" fn dconfdb_is_file_missed(fault: u32) -> bool
    ensures { result ≡ is_file_missed fault }
{
    is_file_missed(fault)
}

/// What is heard of such an event, and before it: 0 the file may have changed, 1 other files may be the store's, 2 nothing. `watch` and `comes` are of the
/// watched name. The file that has the name by now could be watched (`fault` 0), or needn't be, or not, by that errno.
#[unsafe(no_mangle)]
pub extern "C" fn dconfdb_heard(
    before: u32,
    watch: u32,
    comes: u32,
    mask: u32,
    of_file: bool,
    has_name: bool,
    is_same: bool,
    fault: u32,
    is_unseen: bool,
    mode: u32,
    links: u64,
) -> u32
    ensures { result ≡ heard_number (louder (heard_of before) (heard_if (is_file_missed fault) (meaning (name_watch_of watch) (heard_of comes) (event_in mask) (of_what of_file has_name is_same) (seen_by is_unseen mode links)))) }
{
    heard_number(
        before, watch, comes, mask, of_file, has_name, is_same, fault, is_unseen, mode, links,
    )
}

/// What is done next about the flag of dconf's readers: 1 it is looked whether there may be a file, 2 the lock of the database's folder taken, 3 the file
/// opened, 4 made longer, 5 set, 6 its name goes, 7 it is over. It begins with 0, and `could_be` says whether the last one could be done.
#[unsafe(no_mangle)]
pub extern "C" fn dconfdb_flag_after(done: u32, could_be: bool, is_in_turn: bool) -> u32
    ensures { result ≡ flag_number (flag_after done could_be is_in_turn) }
{
    flag_number(done, could_be, is_in_turn)
}
