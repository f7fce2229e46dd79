//! A change of the user's settings.
ghost use Rattle.std.specs.Prelude.{◌≡◌, Ok, IfErr, OnErr, OnOk};
ghost use Rattle.std.specs.List.{AllByRecursion};
ghost use Rattle.dconf_model.specs.Changes.{apply};
ghost use Rattle.dconf_model.specs.Stores.{IsLimitedValue, IsWholeChange};
ghost use Rattle.dconf_engine.specs.ChangeFaults.{Refuses};
ghost use Rattle.dconf_engine.specs.Loads.{rows_of};
ghost use Rattle.dconf_store.specs.Changes.{change_of};

use dconf_engine::{ChangeFault, Engine};
use dconf_path::{DirPath, KeyPath};
use gv_tree::Tree;

/// A change of the user's settings.
#[derive(Clone, Copy)]
pub enum Change<'a> {
    /// A key gets a value.
    Set(KeyPath<'a>, &'a Tree),
    /// A key's value of the user's goes.
    Reset(KeyPath<'a>),
    /// The user's values of all keys below a directory go, except of those that are locked.
    ResetBelow(DirPath<'a>),
    /// The keys of these rows get their values, all of them or none. If it is forced, those that are
    /// locked are left out. Of rows of one key the last counts.
    Load(&'a [(KeyPath<'a>, Tree)], bool),
}

impl Change<'_> {
    /// Makes the change in an engine, or leaves it as it was.
    pub(crate) fn make(self, engine: &mut Engine<'_>) -> Result<(), ChangeFault>
        ensures ok { OnOk result (apply engine.old (change_of self.entry) ≡ Ok engine.new) }
        ensures whole { OnOk result (IsWholeChange (change_of self.entry)) }
        ensures fault { IfErr result (Refuses (apply engine.old (change_of self.entry))) }
        ensures err { OnErr result (engine.new ≡ engine.old) }
    {
        match self {
            Change::Set(path, value) => engine.write(path, value),
            Change::Reset(path) => engine.reset(path),
            Change::ResetBelow(directory) => engine.reset_dir(directory),
            Change::Load(rows, force) => {
                are_whole(rows);
                engine.load(rows, force)
            }
        }
    }
}

/// Each value of the rows is whole: what a tree's type says of it, said of all.
fn are_whole(rows: &[(KeyPath<'_>, Tree)])
    ensures { AllByRecursion (λ row. IsLimitedValue row.value) (rows_of rows.now) }
{
    for (_, value) in rows {
        let _type = value.type_text();
    }
}
