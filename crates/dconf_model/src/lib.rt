//! What a settings store means: definitions in specs/, and their laws as functions with empty bodies, whose contracts are
//! the laws. There is no program code here: nothing is computed when the functions are called, and nothing fails.
//!
//! The definitions go from the bytes of a database (Bytes to Plans) to the texts of settings
//! (Causes to Sources), then to databases as layers and their changes (Databases to Changes), to
//! folders and crashes (Folders and Replacing), and to the program: its commands, what each makes
//! of what it reads, and how it ends (Commands to Runs). What is given by all of that together is
//! said last: by a store (Stores, Reopened), and by runs one after another (Programs, Survivals).
#![tactic(auto)]

ghost use Rattle.dconf_model.specs.Paths.{KeysAreFaultless, DirectoriesAreFaultless};
ghost use Rattle.dconf_model.specs.Sound.{SoundIsSearchable, SoundHasNoFault, HasOneFirstFault};
ghost use Rattle.dconf_model.specs.SoundLaws.{SoundFindsRows, LocksAreSearchable, ValuesAreAtKeys, DirectoriesAreListed, ListsFirstParts, ListsTexts, ListsPartsOnce};
ghost use Rattle.dconf_model.specs.Entries.{LaidIsSound, RowsAreEntries};
ghost use Rattle.dconf_model.specs.Plans.{PlanIsSound, PlanHoldsValues, PlanHoldsLocks, OneLength};
ghost use Rattle.dconf_model.specs.Laws.{FindsRowsAlone, FindsOneThing, HasOneItemPerName, FindsWhereRows, NameIsComputed, HasOneOpenFault};
ghost use Rattle.dconf_model.specs.Values.{TextHasItsValue, HasOneMeaning, StoredIsHeld};
ghost use Rattle.dconf_model.specs.Changes.{RunsInParts};
ghost use Rattle.dconf_model.specs.Runs.{CalmRuns, OneOutput, RunsAreCrashSafe};
ghost use Rattle.dconf_model.specs.Layers.{FirstKeysAreEnough};
ghost use Rattle.dconf_model.specs.Standings.{NextRunFindsAllOf, NothingIsLostOfAll, PutIsSettled, RunsAreKept, WholeProgramGives};
ghost use Rattle.dconf_model.specs.Survivals.{NothingIsLost, NextRunFindsAll};
ghost use Rattle.std.specs.Prelude.{ℕ, List};
ghost use Rattle.dconf_model.specs.Order.{OrderIsStable, ListingIsOnceEach};
ghost use Rattle.dconf_model.specs.Keyfiles.{DumpReadsBack, DumpHasEachSetting, DumpIsInOrder};
ghost use Rattle.dconf_model.specs.Dumps.{PrintedReadsAsDumped};
ghost use Rattle.dconf_model.specs.Databases.{SaysWhatIsInIt, SaysSettings, SaysOneThing, WrittenSaysSettings};
ghost use Rattle.dconf_model.specs.Programs.{GivenHolds, NoFileGivesNothing, CompileGives, CompileSteps, RepairGives, RepairSteps, DoneIsSettled, QuestionsAreAnswered, EmptyPrintsNothing, ChangesAreKept, ProgramGives};
ghost use Rattle.dconf_model.specs.Reopened.{ReopenedIsSame};
ghost use Rattle.dconf_model.specs.Stores.{TextsAreWhole, MissingGivesNothing, CompiledGives, SoundGives, EachValueIsGiven, EachListingIsExact, EmptyHasNothing};
ghost use Rattle.dconf_model.specs.Walks.{LayersHaveKeyPaths, WalkFindsEachKey, WalkEnds, WalkHasEachSetting};

/// A search in any table finds rows alone, and one thing only.
pub fn a_search_finds_a_row()
    ensures row { FindsRowsAlone }
    ensures one { FindsOneThing }
{}

/// A full name is what going up as many parents as there are items gives.
pub fn name_is_computed()
    ensures { NameIsComputed }
{}

/// In a table whose items can be found by their names, a name has one item, and a search finds an item exactly where
/// the rows have its name and kind.
pub fn each_row_is_found()
    ensures one { HasOneItemPerName }
    ensures found { FindsWhereRows }
{}

/// Bytes that open as a database have no fault, and others have one fault only.
pub fn one_open_fault()
    ensures { HasOneOpenFault }
{}

/// In a sound table each item can be found by its name. A sound table has no first fault, and no table has two.
pub fn one_first_fault()
    ensures searchable { SoundIsSearchable }
    ensures sound { SoundHasNoFault }
    ensures one { HasOneFirstFault }
{}

/// In a sound table, and in its table of locks, a search finds exactly the rows. The rows of the table of locks are its
/// items, by their keys.
pub fn sound_rows_are_found()
    ensures root { SoundFindsRows }
    ensures locks { LocksAreSearchable }
{}

/// In a sound table the list of a directory gives, once each, the first parts of the names of values that start with the
/// directory's name: what follows it up to and with the first `/`, or all where there is none. They are UTF-8.
pub fn a_directory_lists_first_parts()
    ensures parts { ListsFirstParts }
    ensures texts { ListsTexts }
    ensures once { ListsPartsOnce }
{}

/// In a sound table each value is named by the path of a key, and each directory of such a path has a list.
pub fn sound_names_are_paths()
    ensures keys { ValuesAreAtKeys }
    ensures directories { DirectoriesAreListed }
{}

/// A text is a key path, or a directory path, exactly where it has no fault as one.
pub fn paths_are_faultless()
    ensures keys { KeysAreFaultless }
    ensures directories { DirectoriesAreFaultless }
{}

/// A root table in which directories, keys and locks are laid out is sound, and its rows are what is laid out.
pub fn a_laid_table_is_sound()
    ensures sound { LaidIsSound }
    ensures rows { RowsAreEntries }
{}

/// A root table that is laid out by a plan of settings is sound, and holds their values and their locks.
pub fn a_planned_table_holds_its_settings()
    ensures sound { PlanIsSound }
    ensures values { PlanHoldsValues }
    ensures locks { PlanHoldsLocks }
{}

/// The database of a map has one length: all plans of a map have the same entries, lists, values and locks.
pub fn a_map_has_one_length()
    ensures { OneLength }
{}

/// The value that is computed of a text is its meaning, and a text has no other.
pub fn a_text_has_its_value()
    ensures is { TextHasItsValue }
    ensures alone { HasOneMeaning }
{}

/// The value of a text of UTF-8 is a value of its type, whose text is within the limits.
pub fn each_text_is_whole()
    ensures { TextsAreWhole }
{}

/// The bytes that are stored for a value hold it.
pub fn stored_values_are_held()
    ensures { StoredIsHeld }
{}

/// A list of changes followed by another is the other on what the first leaves.
pub fn changes_run_in_parts()
    ensures { RunsInParts }
{}

/// What a command reads leaves it one output.
pub fn a_command_has_one_output()
    ensures { OneOutput }
{}

/// What is seen otherwise through layers that are the same but for the first is a key of one of
/// the first two.
pub fn first_keys_are_enough()
    ensures { FirstKeysAreEnough }
{}

/// A run whose reads and writing calls don't fail answers what the folder's content says. A crash at any moment of a run
/// leaves each file whole.
pub fn runs_are_whole()
    ensures calm { CalmRuns }
    ensures crash { RunsAreCrashSafe }
{}

/// Nothing that was done is lost, whatever crashes come in between, and nothing is half done: the
/// user's file says what the commands make that answered 0, and some of those that were stopped
/// or at fault, in order. A run after them finds it so.
pub fn nothing_is_lost()
    ensures left { NothingIsLost }
    ensures found { NextRunFindsAll }
{}

/// Nor is it where runs of `compile` and `repair` come among them. Of these none may have failed at
/// the device where it puts its file: a crash might change that one back later.
pub fn nothing_put_in_place_is_lost()
    ensures left { NothingIsLostOfAll }
    ensures found { NextRunFindsAllOf }
{}

/// A sound database says the settings that are computed from its items: values at the paths of keys, and locks at paths. A
/// file says one thing. A file that is written for settings says just these.
pub fn a_file_says_its_settings()
    ensures is { SaysWhatIsInIt }
    ensures paths { SaysSettings }
    ensures one { SaysOneThing }
    ensures written { WrittenSaysSettings }
{}

/// A listing has the same texts in byte order, once each.
pub fn a_listing_is_in_order()
    ensures { ListingIsOnceEach }
{}

/// The value of each path in a store is the one that its keyfiles, locks, changes and the order of its databases give. Each
/// listing names exactly the children that they give.
pub fn a_store_gives_what_was_written()
    ensures values { EachValueIsGiven }
    ensures listings { EachListingIsExact }
    ensures none { EmptyHasNothing }
{}

/// A missing database gives nothing, one that was compiled what its keyfiles and lock files give,
/// and any sound one something.
pub fn a_database_gives_rows()
    ensures missing { MissingGivesNothing }
    ensures compiled { CompiledGives }
    ensures sound { SoundGives }
{}

/// A store whose first database was saved and opened again, with the others as they were, is seen
/// as before.
pub fn a_saved_store_is_seen_again()
    ensures { ReopenedIsSame }
{}

/// A folder whose databases give rows stands, and a run of `compile` makes a database give what
/// its keyfiles and lock files give, before other runs or between them.
pub fn a_compiled_folder_holds()
    ensures held { GivenHolds }
    ensures missing { NoFileGivesNothing }
    ensures compiles { CompileGives }
    ensures steps { CompileSteps }
{}

/// So does a run of `repair`, which makes it give what is salvaged of a file.
pub fn a_repaired_folder_holds()
    ensures repairs { RepairGives }
    ensures steps { RepairSteps }
{}

/// The file of a command that answered 0 is settled: no crash changes it, nor a file that none
/// changed before. So are then the databases of a profile.
pub fn what_is_done_is_settled()
    ensures file { DoneIsSettled }
    ensures databases { PutIsSettled }
{}

/// A run that reads the store prints what its databases give.
pub fn a_program_gives_what_was_written()
    ensures answers { QuestionsAreAnswered }
    ensures none { EmptyPrintsNothing }
    ensures changes { ChangesAreKept }
    ensures whole { ProgramGives }
{}

/// Runs of `compile` and `repair` may come among those that change the store: a run after all of
/// them prints what the databases give then.
pub fn a_program_gives_what_was_put_in_place()
    ensures kept { RunsAreKept }
    ensures whole { WholeProgramGives }
{}

/// A list put in order by its names has the same things, rising, and those of one name in the order that they had.
pub fn order_is_stable<T>()
    ensures { (name : T → List ℕ) → OrderIsStable T name }
{}

/// The text of a dump, where it is within the limit, is read again as the settings in the dump's order, and these are the
/// settings that were dumped.
pub fn a_dump_reads_back()
    ensures again { DumpReadsBack }
    ensures same { DumpHasEachSetting }
    ensures order { DumpIsInOrder }
{}

/// What `dump` and `dump --skip-doubles` print of any databases is read again as the settings that they dump, comment lines and
/// all: no part of a name is read as a row.
pub fn a_printed_dump_reads_back()
    ensures { PrintedReadsAsDumped }
{}

/// A walk over a directory, which takes the names that it has in their order and goes through what is below each before the
/// next, finds each key once, in byte order of paths. It ends, and has the settings of a dump.
pub fn a_walk_finds_each_key()
    ensures keys { WalkFindsEachKey }
    ensures ends { WalkEnds }
    ensures settings { WalkHasEachSetting }
    ensures paths { LayersHaveKeyPaths }
{}
