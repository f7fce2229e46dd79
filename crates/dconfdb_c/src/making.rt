//! A change around its turn: what is asked before there are bytes, whose its file is, what its program has in the end and is told, and what it
//! knows from then on.
ghost use Rattle.std.specs.Prelude.{◌≡◌};
ghost use Rattle.dconf_turn.specs.Records.{outcome_of};
ghost use Rattle.dconf_making.specs.Endings.{IsEndingTold, ending_of};
ghost use Rattle.dconf_making.specs.Knowing.{after, happening_of};
ghost use Rattle.dconf_making.specs.Making.{after as made_after, ask_number, ask_of, found_of};
ghost use Rattle.dconf_making.specs.Renamings.{IsToldLook, new_look};
ghost use Rattle.dconf_making.specs.Sentences.{sentence_of};
ghost use Rattle.dconf_making.specs.Settling.{settling_after, settling_number};

use dconf_files::{FileOwner, NewFile, NewOwner, OldFile};
use dconf_making::{
    DconfdbEnding, FaultMet, Making, NewLook, Sentence, SettlingKnown, StoreKnown, ending_by,
    new_look, number_of_settling, sentence_of,
};

const EAGAIN: u32 = 11;

const EACCES: u32 = 13;

const ELOOP: u32 = 40;

/// What is asked of a change after that answer, or what came of all: 0 is it as expected, 1 are edits left, 2 are there bytes, 3 is all there
/// already, 4 do they open; 5 it is ready, 6 nothing, 7 it failed; it begins with 8. Of one that ended, which is 9, if it is there: 10 has all that it
/// asks for a note, 11 are the notes written; 12 they are, 13 they aren't. The answers: 0 yes, 1 no, 2 a fault.
#[unsafe(no_mangle)]
pub extern "C" fn dconfdb_making_after(
    makes_file: bool,
    is_unsettled: bool,
    is_expected: bool,
    ask: u32,
    found: u32,
) -> u32
    ensures { result ≡ ask_number (made_after (record { makes_file = makes_file; is_unsettled = is_unsettled; is_expected = is_expected }) (ask_of ask) (found_of found)) }
{
    let making = Making {
        makes_file,
        is_unsettled,
        is_expected,
    };
    making.after_number(ask, found)
}

/// What a program has of a change by its outcome and the first fault. `before`: a change before this one may
/// not be on the disk. `is_aside`: the old file has another name.
#[unsafe(no_mangle)]
pub extern "C" fn dconfdb_ending(
    outcome: u32,
    fault: u32,
    before: bool,
    is_aside: bool,
    ending: &mut DconfdbEnding,
)
    ensures { IsEndingTold (ending_of (outcome_of outcome fault) before is_aside) (outcome_of outcome fault) ending.new }
{
    *ending = ending_by(outcome, fault, before, is_aside);
}

/// What a program is told of a fault. The numbers are those of [`FaultMet`] and [`Sentence`].
#[unsafe(no_mangle)]
pub extern "C" fn dconfdb_sentence(met: &FaultMet, sentence: &mut Sentence)
    ensures { sentence.new ≡ sentence_of met.now }
{
    *sentence = sentence_of(met);
}

/// Whose the new file is, and what a turn is told of its bits, by what has the old one's name, of which a link is not followed at first. `is_bad`:
/// something was wrong with it, so that it is set aside. 0: it is given so; or an errno, 13 it is refused, 11 what was read is another one by now, 40 it is
/// a link, which is to be followed; and then `given` stays as it was.
#[unsafe(no_mangle)]
pub extern "C" fn dconfdb_owner_and_bits(
    old: &OldFile,
    above: &FileOwner,
    is_root: bool,
    is_bad: bool,
    given: &mut NewFile,
) -> u32
    ensures { IsToldLook (new_look old.now above.now is_root is_bad) given.old result given.new }
{
    match new_look(old, *above, is_root, is_bad) {
        NewLook::Is(NewOwner::Given(new)) => {
            *given = new;
            0
        }
        NewLook::Is(NewOwner::Refused) => EACCES,
        NewLook::Is(NewOwner::Again) => EAGAIN,
        NewLook::Follow => ELOOP,
    }
}

/// What is asked of whether the user's file is on the disk, once that task was done, by its answer: 1 is it noted so, 2 it is to be brought
/// there, 3 its folder's names are, 4 is it the same file; 5 it is known to be there, 6 all is done, 7 it isn't.
#[unsafe(no_mangle)]
pub extern "C" fn dconfdb_settling_after(done: u32, is_so: bool, known: &SettlingKnown) -> u32
    ensures { result ≡ settling_number (settling_after done is_so known.now) }
{
    number_of_settling(done, is_so, known)
}

/// What a store knows beside what it shows, after that: 0 a look found other files, which is news (`yes`) or not; 1 it told its news; 2 others changed
/// something, which it remembers from now on (`yes`) or has no memory for; 3 it noted what was set, and (`yes`) what was asked for is in its file, the last of it at the time `number`, or 0; 4 a change
/// ended, after which these settings are the newest (`number`), and which may not be on the disk (`yes`); 6 a look found another file, which is that of
/// the change that is perhaps made (`yes`) or not; else it was opened in the place of `old`, of the same user's file (`yes`) or of another one.
#[unsafe(no_mangle)]
pub extern "C" fn dconfdb_store_after(
    known: &mut StoreKnown,
    what: u32,
    yes: bool,
    number: u64,
    old: &StoreKnown,
)
    ensures { known.new ≡ after known.old (happening_of what yes number old.now) }
{
    *known = known.after_number(what, yes, number, old);
}
