//! The parts of a dump, which are gathered key by key.
ghost use Rattle.std.specs.Prelude.{◌≡◌, ◌++◌, ◌∷◌, [], ◌&&◌, ℕ, List, Err, Some, IfOk, IfErr, IsTrue, OnOk, map, nat_eq, not, true, string_bytes};
ghost use Rattle.std.specs.List.{All, starts_with};
ghost use Rattle.gv_view.specs.Views.{value};
ghost use Rattle.dconf_model.specs.Doubles.{comment_lines, has_line_feed, is_double_if_any};
ghost use Rattle.dconf_model.specs.Layers.{Layers, visible};
ghost use Rattle.dconf_model.specs.Outcomes.{dump_at};
ghost use Rattle.dconf_path.specs.Paths.{directory_text};
ghost use Rattle.keyfile_core.specs.DumpRows.{AreAllBelow};
ghost use Rattle.dconf_layers.specs.Children.{seen_path};
ghost use Rattle.dconf_streams.specs.Answers.{GivesOutcome};

use crate::printed_setting::PrintedSetting;
use dconf_layers::SeenKey;
use dconf_path::DirPath;
use dconf_streams::{Refusal, refused};
use gv_text::{PrintFault, PrintFlaw, print_onto};
use gv_view::View;
use keyfile_core::is_row_path;
use std::alloc::{AllocError, Global};

/// The parts of a dump.
#[derive(Drop)]
pub(crate) struct DumpParts {
    /// A line for each key whose value is left out.
    pub comments: String,
    /// The others that have a value. A key that is left out stands among them, without a text, if its path could be no row: so the
    /// dump is refused at its turn.
    pub settings: Vec<PrintedSetting>,
}

impl DumpParts {
    ghost use Rattle.dconf_commands.specs.Dumps.{IsSeen, goes_on, setting_of};

    /// The parts of a dump of these keys below a directory, or the refusal of the first value that isn't printed.
    pub(crate) fn of_keys(
        alloc: Global,
        skip_doubles: bool,
        directory: DirPath<'_>,
        keys: Vec<SeenKey<'_>>,
    ) -> Result<DumpParts, Refusal>
        requires { All (λ key. IsTrue (starts_with nat_eq (seen_path key) (directory_text directory))) keys.items }
        ensures ok { IfOk result (λ parts. (l : Layers) → All (IsSeen l) keys.entry.items
            → goes_on skip_doubles l (directory_text directory.entry) parts [] ≡ dump_at skip_doubles (directory_text directory.entry) l (map seen_path keys.entry.items)) }
        ensures below { IfOk result (λ parts. AreAllBelow setting_of (directory_text directory.entry) parts.settings.items) }
        ensures err { IfErr result (λ refusal. (l : Layers) → All (IsSeen l) keys.entry.items
            → GivesOutcome (Err refusal) (λ o. o ≡ dump_at skip_doubles (directory_text directory.entry) l (map seen_path keys.entry.items))) }
    {
        let skips = may_skip(skip_doubles, directory);
        let mut parts = DumpParts {
            comments: String::new(alloc),
            settings: Vec::with_capacity(alloc, keys.len())?,
        };
        let mut text = String::new(alloc);
        for key in keys {
            match key.bytes {
                Some(bytes) => {
                    text.clear();
                    parts.push(
                        alloc,
                        skips,
                        directory,
                        key.path,
                        View::of_variant(bytes),
                        &mut text,
                    )?;
                }
                None => {}
            }
        }
        Ok(parts)
    }

    /// Adds the value that is seen at a path.
    fn push(
        &mut self,
        alloc: Global,
        skips: bool,
        directory: DirPath<'_>,
        path: String,
        view: View<'_>,
        text: &mut String,
    ) -> Result<(), Refusal>
        requires empty { string_bytes text.old ≡ [] }
        requires below { IsTrue (starts_with nat_eq (string_bytes path) (directory_text directory)) }
        ensures ok { OnOk result ((l : Layers) (later : List (List ℕ)) → visible l (string_bytes path) ≡ Some (value view.entry)
            → goes_on skips l (directory_text directory.entry) self.new later ≡ goes_on skips l (directory_text directory.entry) self.old (string_bytes path ∷ later)) }
        ensures below { OnOk result (AreAllBelow setting_of (directory_text directory.entry) self.old.settings.items
            → AreAllBelow setting_of (directory_text directory.entry) self.new.settings.items) }
        ensures err { IfErr result (λ refusal. (l : Layers) (later : List (List ℕ)) → visible l (string_bytes path) ≡ Some (value view.entry)
            → GivesOutcome (Err refusal) (λ o. o ≡ goes_on skips l (directory_text directory.entry) self.old (string_bytes path ∷ later))) }
    {
        match print_onto(text, view) {
            Ok(()) => {
                self.settings
                    .push(PrintedSetting::new(path, text.as_str())?)?;
                Ok(())
            }
            Err(PrintFault::Fault(PrintFlaw::DoubleText)) if skips => {
                self.leave_out(directory, path)?;
                Ok(())
            }
            Err(PrintFault::Memory) => Err(Refusal::Memory),
            Err(PrintFault::Fault(flaw)) => Err(refused(alloc, format_args!("{flaw} {path}"))),
        }
    }

    /// Leaves a key out, whose value is a double: a comment names it, if its path could be a row.
    fn leave_out(&mut self, directory: DirPath<'_>, path: String) -> Result<(), AllocError>
        requires { IsTrue (starts_with nat_eq (string_bytes path) (directory_text directory)) }
        ensures ok { OnOk result ((l : Layers) (later : List (List ℕ)) → IsTrue (is_double_if_any (visible l (string_bytes path)))
            → goes_on true l (directory_text directory.entry) self.new later ≡ goes_on true l (directory_text directory.entry) self.old (string_bytes path ∷ later)) }
        ensures below { OnOk result (AreAllBelow setting_of (directory_text directory.entry) self.old.settings.items
            → AreAllBelow setting_of (directory_text directory.entry) self.new.settings.items) }
    {
        if is_row_path(path.as_str(), directory) {
            push_comment(&mut self.comments, path.as_str())
        } else {
            self.settings.push(PrintedSetting::new(path, "")?)?;
            Ok(())
        }
    }
}

/// Whether doubles are left out below a directory. No line could name a key below one that has a line feed.
fn may_skip(skip_doubles: bool, directory: DirPath<'_>) -> bool
    ensures { result ≡ (skip_doubles && not (has_line_feed (directory_text directory.entry))) }
{
    skip_doubles && !directory.as_str().as_bytes().contains(&b'\n')
}

/// Adds a comment line.
fn push_comment(comments: &mut String, path: &str) -> Result<(), AllocError>
    ensures { OnOk result (string_bytes comments.new ≡ string_bytes comments.old ++ comment_lines (path.now ∷ [])) }
{
    comments.push_str("# ")?;
    comments.push_str(path)?;
    comments.push('\n')
}
