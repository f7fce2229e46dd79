//! A row of a dump: a setting's path below the directory, cut at its last slash.
ghost use Rattle.std.specs.Prelude.{◌≡◌, [], IfOk, IfErr, IfNone, IfSome, None, Some, IsTrue, is_none, map, option_map, length, take, drop, ◌-◌, nat_eq};
ghost use Rattle.std.specs.List.{starts_with};
ghost use Rattle.refused.specs.Faults.{OfFault};
ghost use Rattle.dconf_model.specs.Keyfiles.{dump_row, first_row_fault, key_len, row_fault};
ghost use Rattle.dconf_path.specs.Paths.{directory_text};

use crate::groups::{group_name, is_group};
use crate::keys::is_readable_key;
use crate::rows_fault::{RowsCause, RowsFault, RowsFlaw};
use crate::setting::AsSetting;
use dconf_path::DirPath;
use memchr::memrchr;
use std::alloc::Global;

/// A row of a dump.
#[derive(Clone, Copy)]
pub(crate) struct DumpRow<'a> {
    /// The path below the directory up to its last slash, without it; empty for a key of the directory itself.
    pub part: &'a str,
    pub key: &'a str,
    pub text: &'a str,
}

impl<'a> DumpRow<'a> {
    ghost use Rattle.dconf_model.specs.Keyfiles.{group_name, is_group, row_fault};
    ghost use Rattle.keyfile_core.specs.DumpRows.{dump_meant};
    ghost use Rattle.keyfile_core.specs.RowsFaults.{rows_cause_of};

    /// The row of a path below the directory and a value's text.
    fn new(path: &'a str, text: &'a str) -> DumpRow<'a>
        ensures part { result.part.now ≡ take (length path.entry.now - key_len path.entry.now - 1) path.entry.now }
        ensures key { result.key.now ≡ drop (length path.entry.now - key_len path.entry.now) path.entry.now }
        ensures text { result.text.now ≡ text.entry.now }
    {
        match memrchr(b'/', path.as_bytes()) {
            Some(slash) => DumpRow {
                part: &path[..slash],
                key: &path[slash + 1..],
                text,
            },
            None => DumpRow {
                part: "",
                key: path,
                text,
            },
        }
    }

    /// Why the row could not be read again. What is known to be a group needn't be looked at: the part of the row before.
    fn fault_after(self, before: Option<&str>) -> Option<RowsCause>
        requires { IfSome before (λ part. IsTrue (is_group (group_name part.now))) }
        ensures fault { option_map rows_cause_of result ≡ row_fault (dump_meant self.entry) }
        ensures group { IfNone result (IsTrue (is_group (group_name self.entry.part.now))) }
    {
        if !self.has_group_after(before) {
            return Some(RowsCause::BadGroup);
        }
        if !is_readable_key(self.key) {
            return Some(RowsCause::BadKeyName);
        }
        None
    }

    /// Whether its part is a group.
    fn has_group_after(self, before: Option<&str>) -> bool
        requires { IfSome before (λ part. IsTrue (is_group (group_name part.now))) }
        ensures { result ≡ is_group (group_name self.entry.part.now) }
    {
        match before {
            Some(part) if part == self.part => true,
            _ => is_group(group_name(self.part)),
        }
    }
}

ghost use Rattle.keyfile_core.specs.DumpRows.{AreAllBelow, dump_meant, row_below};
ghost use Rattle.keyfile_core.specs.RowsFaults.{rows_fault_of};

/// The rows of settings below a directory, unless one could not be read again.
pub(crate) fn rows_below<'a, S: AsSetting>(
    alloc: Global,
    settings: &'a [S],
    directory: &str,
) -> Result<Vec<DumpRow<'a>>, RowsFault>
    requires { AreAllBelow S.setting directory.now settings.now }
    ensures rows { IfOk result (λ rows. map dump_meant rows.items ≡ map (row_below S.setting directory.entry.now) settings.entry.now) }
    ensures faultless { IfOk result (λ rows. first_row_fault 0 (map (row_below S.setting directory.entry.now) settings.entry.now) ≡ None) }
    ensures fault { IfErr result (OfFault (λ fault. first_row_fault 0 (map (row_below S.setting directory.entry.now) settings.entry.now) ≡ Some (rows_fault_of fault))) }
{
    let mut rows = Vec::with_capacity(alloc, settings.len())?;
    let mut before = None;
    for (at, setting) in settings.iter().enumerate() {
        let path = path_below(setting.path(), directory);
        let row = DumpRow::new(path, setting.text());
        if let Some(cause) = row.fault_after(before) {
            return Err(RowsFault::Fault(RowsFlaw { row: at, cause }));
        }
        before = Some(row.part);
        rows.push(row)?;
    }
    Ok(rows)
}

/// Whether a path, which starts with the directory's, could be that of a row. [`write_settings`](crate::write_settings) refuses any other.
pub fn is_row_path(path: &str, directory: DirPath<'_>) -> bool
    requires { IsTrue (starts_with nat_eq path.now (directory_text directory)) }
    ensures { result ≡ is_none (row_fault (dump_row (directory_text directory.entry) (record { path = path.entry.now; text = [] }))) }
{
    let row = DumpRow::new(path_below(path, directory.as_str()), "");
    row.fault_after(None).is_none()
}

/// What follows the directory in a path below it.
fn path_below<'a>(path: &'a str, directory: &str) -> &'a str
    requires { IsTrue (starts_with nat_eq path.now directory.now) }
    ensures { result.now ≡ drop (length directory.entry.now) path.entry.now }
{
    path.strip_prefix(directory).unwrap()
}
