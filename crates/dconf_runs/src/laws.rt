//! What turns of programs of any kind give where files of the store may be bad. Nothing is computed here.
ghost use Rattle.dconf_runs.specs.BadFiles.{CountsAreSound, FilesCountAlike, MixedTurnsMendAll};

/// Of a file that is no sound database the command and the library count the same settings.
pub fn files_count_alike()
    ensures { FilesCountAlike }
{}

/// What counts of a file is a sound database, or none.
pub fn counts_are_sound()
    ensures { CountsAreSound }
{}

/// Programs of any kind take turns to change the user's file, which may be bad, beside others that may be: each by what counts of
/// the files. A kill or a crash may cut one off at any step, and a crash may come between two. Then all that is seen is what rows, locks,
/// the changes of the turns that are kept, and the order of the databases give, where a bad file gives what counts of it.
pub fn mixed_turns_mend_all()
    ensures { MixedTurnsMendAll }
{}
