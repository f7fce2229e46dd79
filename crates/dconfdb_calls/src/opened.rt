//! Opening the layers of a store.
ghost use Rattle.std.specs.Prelude.{◌≡◌, IfErr, IfOk};
ghost use Rattle.dconf_model.specs.Databases.{IsLayer};
ghost use Rattle.dconf_layers.specs.LayerSettings.{settings_of};
ghost use Rattle.dconf_layers.specs.Verdicts.{bytes_of_file, verdict_of};
ghost use Rattle.dconf_model.specs.Sound.{rule_number};
ghost use Rattle.gvdb_format.specs.Faults.{open_fault_of};
ghost use Rattle.gvdb_check.specs.Unsounds.{rule_of};
ghost use Rattle.dconfdb_calls.specs.Numbers.{number_of};
ghost use Rattle.dconfdb_calls.specs.Opened.{IsToldOf, SaysRule, bytes_if, item_told, open_number, verdict_number};

use crate::fault::Fault;
use dconf_layers::{DatabaseFault, Layer};
use gvdb_read::{OpenFault, Rule, Unsound};

/// The rule that a database breaks, by its number, and the item that breaks it, if the rule is one
/// of items.
#[repr(C)]
#[derive(Clone, Copy)]
pub struct DconfdbUnsound {
    pub rule: u32,
    pub item: u32,
    pub has_item: bool,
}

/// Why a file's bytes are no sound database. `unsound` says what is broken at the fault `Unsound`,
/// and is all zeros at any other.
#[derive(Clone, Copy)]
pub struct BadFile {
    pub fault: Fault,
    pub unsound: DconfdbUnsound,
}

/// Opens a layer: a database of a file's bytes, or an empty one if there is no file.
///
/// `Short`, `BadSignature`, `BadVersion`, `BadRoot` or `BadTable` if the bytes open as no database;
/// `Unsound` if the database breaks a rule of sound ones. It asks each rule of each item, and
/// allocates nothing.
pub fn open_layer(file: &[u8], is_there: bool) -> Result<Layer<'_>, BadFile>
    ensures opened { IfOk result (λ layer. IsLayer (bytes_if is_there file.entry.now) (settings_of layer)) }
    ensures fault { IfErr result (λ e. IsToldOf (bytes_if is_there file.entry.now) (number_of e.fault) e.unsound) }
{
    match Layer::open(given(file, is_there)) {
        Ok(layer) => Ok(layer),
        Err(fault) => Err(bad_file(fault)),
    }
}

/// As [`open_layer`], of a file that replaced the one of a layer. It answers the same, at a quarter of
/// the cost where both files have the same items but for the bytes of values, and no locks.
pub fn open_layer_after<'a>(
    old: &Layer<'_>,
    file: &'a [u8],
    is_there: bool,
) -> Result<Layer<'a>, BadFile>
    ensures opened { IfOk result (λ layer. IsLayer (bytes_if is_there file.entry.now) (settings_of layer)) }
    ensures fault { IfErr result (λ e. IsToldOf (bytes_if is_there file.entry.now) (number_of e.fault) e.unsound) }
{
    match old.open_after(given(file, is_there)) {
        Ok(layer) => Ok(layer),
        Err(fault) => Err(bad_file(fault)),
    }
}

/// The bytes, if there is a file.
fn given(file: &[u8], is_there: bool) -> Option<&[u8]>
    ensures { bytes_of_file result ≡ bytes_if is_there file.entry.now }
{
    if is_there { Some(file) } else { None }
}

/// What C is told of bytes that are no sound database.
fn bad_file(fault: DatabaseFault) -> BadFile
    ensures number { number_of result.fault ≡ verdict_number (verdict_of fault) }
    ensures rule { SaysRule (verdict_of fault) result.unsound }
{
    match fault {
        DatabaseFault::NoDatabase(fault) => BadFile {
            fault: fault_of(fault),
            unsound: DconfdbUnsound {
                rule: 0,
                item: 0,
                has_item: false,
            },
        },
        DatabaseFault::Unsound(broken) => BadFile {
            fault: Fault::Unsound,
            unsound: told(broken),
        },
    }
}

/// The fault of bytes that are no database.
pub(crate) fn fault_of(fault: OpenFault) -> Fault
    ensures { number_of result ≡ open_number (open_fault_of fault) }
{
    match fault {
        OpenFault::Short => Fault::Short,
        OpenFault::BadSignature => Fault::BadSignature,
        OpenFault::BadVersion => Fault::BadVersion,
        OpenFault::BadRoot => Fault::BadRoot,
        OpenFault::BadTable => Fault::BadTable,
    }
}

/// What C is told of a database that is not sound.
fn told(broken: Unsound) -> DconfdbUnsound
    ensures rule { result.rule ≡ rule_number (rule_of broken.rule) }
    ensures item { item_told result ≡ broken.item }
{
    DconfdbUnsound {
        rule: number_of_rule(broken.rule),
        item: broken.item.unwrap_or(0),
        has_item: broken.item.is_some(),
    }
}

/// A rule's number.
fn number_of_rule(rule: Rule) -> u32
    ensures { result ≡ rule_number (rule_of rule) }
{
    match rule {
        Rule::Buckets => 1,
        Rule::Keys => 2,
        Rule::Chain => 3,
        Rule::Hash => 4,
        Rule::Span => 5,
        Rule::Bloom => 6,
        Rule::Once => 7,
        Rule::Content => 8,
        Rule::Place => 9,
        Rule::Lists => 10,
        Rule::Locks => 11,
    }
}
