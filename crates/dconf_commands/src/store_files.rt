//! The files of a store: the profile, and the databases that it names.
ghost use Rattle.std.specs.Prelude.{◌≡◌, ℕ, Err, Ok, IfOk, IfErr, length, map, vec_items};
ghost use Rattle.dconf_model.specs.Databases.{AreLayers};
ghost use Rattle.dconf_model.specs.Outcomes.{OrLine, OrNoDatabase, WithDatabases, WithLayers};
ghost use Rattle.dconf_model.specs.Profiles.{database_file, has_writable, profile_of};
ghost use Rattle.dconf_path.specs.Profiles.{database_of, databases_of};
ghost use Rattle.dconf_layers.specs.Verdicts.{bytes_of_files};
ghost use Rattle.dconf_layers.specs.LayerSettings.{settings_of};
ghost use Rattle.dconf_streams.specs.Answers.{GivesOutcome};
ghost use Rattle.dconf_streams.specs.Readings.{Decides, HasRead, NothingIfAny, found_read, one_read};
ghost use Rattle.dconf_commands.specs.StoreReads.{NoDatabases, NoItems, bytes_of, database_reads};

use dconf_engine::{Engine, EngineFault, open_layers};
use dconf_folders::Folder;
use dconf_layers::Layer;
use dconf_path::{Database, Profile, ProfileFault, read_profile, settings_text};
use dconf_places::file_name;
use dconf_streams::{NamedFile, Refusal, file_if_any, refused, refused_at};
use std::alloc::{AllocError, Global};

/// A profile, and the bytes of the databases that it names.
#[derive(Drop)]
pub struct StoreFiles<'a> {
    pub profile: Profile<'a>,
    /// In the profile's order; of a missing one there are none.
    databases: Vec<Option<Vec<u8>>>,
}

impl<'a> StoreFiles<'a> {
    ghost use Rattle.dconf_commands.specs.Stores.{HasStore, IsStoreOf, NoLayers, items_of, named_by};

    /// Reads the databases that a profile names, in their order, by the profile's file.
    pub fn read<'f: 'a, F: Folder>(
        alloc: Global,
        folder: &mut F,
        file: &'a NamedFile<'f>,
    ) -> Result<StoreFiles<'a>, Refusal>
        ensures ok { IfOk result (HasStore F.Folder folder.old folder.new (vec_items file.now.bytes)) }
        ensures err { IfErr result (λ refusal. Decides F.Folder folder.old folder.new 1
            (λ reads. OrLine file.now.name.now (profile_of (vec_items file.now.bytes)) (λ databases. WithDatabases reads 1 databases NoItems)) (Err refusal)) }
    {
        let profile = profile(alloc, file.name, &file.bytes)?;
        let databases = databases(alloc, profile.databases(), folder)?;
        Ok(StoreFiles { profile, databases })
    }

    /// The layers of the databases, or the refusal for the first that is no sound one.
    pub fn layers(&self, alloc: Global) -> Result<Vec<Layer<'_>>, Refusal>
        ensures ok { IfOk result (λ layers. AreLayers (items_of self.now) (map settings_of layers.items)) }
        ensures err { IfErr result (λ refusal. GivesOutcome (Err refusal) (WithLayers (items_of self.now) (has_writable (named_by self.now)) NoLayers)) }
    {
        let files = lent(alloc, &self.databases)?;
        match open_layers(alloc, &files) {
            Ok(layers) => Ok(layers),
            Err(EngineFault::Fault(bad)) => Err(refused(alloc, bad)),
            Err(EngineFault::Memory) => Err(Refusal::Memory),
        }
    }

    /// The engine of the databases, or the refusal for the first that is no sound one.
    pub(crate) fn open(&self, alloc: Global) -> Result<Engine<'_>, Refusal>
        requires { length (items_of self.now) ≡ length (named_by self.now) }
        ensures ok { IfOk result (IsStoreOf self.now) }
        ensures err { IfErr result (λ refusal. GivesOutcome (Err refusal) (WithLayers (items_of self.now) (has_writable (named_by self.now)) NoLayers)) }
    {
        let files = lent(alloc, &self.databases)?;
        match Engine::open(alloc, &self.profile, &files) {
            Ok(engine) => Ok(engine),
            Err(EngineFault::Fault(bad)) => Err(refused(alloc, bad)),
            Err(EngineFault::Memory) => Err(Refusal::Memory),
        }
    }
}

/// The bytes of each, lent.
fn lent(alloc: Global, items: &[Option<Vec<u8>>]) -> Result<Vec<Option<&[u8]>>, AllocError>
    ensures { IfOk result (λ files. bytes_of_files files.items ≡ map bytes_of items.entry.now) }
{
    let mut files = Vec::new(alloc);
    for item in items {
        files.push(item.as_deref())?;
    }
    Ok(files)
}

/// The profile of its file's bytes, or the refusal of its first line at fault.
pub fn profile<'a>(alloc: Global, name: &str, bytes: &'a [u8]) -> Result<Profile<'a>, Refusal>
    ensures ok { IfOk result (λ profile. profile_of bytes.entry.now ≡ Ok (databases_of profile)) }
    ensures err { IfErr result (λ refusal. GivesOutcome (Err refusal) (OrLine name.now (profile_of bytes.entry.now) NoDatabases)) }
{
    let text = match settings_text(bytes) {
        Ok(text) => text,
        Err(fault) => return Err(refused_at(alloc, name, fault.line(), fault)),
    };
    match read_profile(alloc, text) {
        Ok(profile) => Ok(profile),
        Err(ProfileFault::Fault(flaw)) => Err(refused_at(alloc, name, flaw.line(), flaw)),
        Err(ProfileFault::Memory) => Err(Refusal::Memory),
    }
}

/// The bytes of databases, in their order; of a missing one there are none.
pub fn databases<F: Folder>(
    alloc: Global,
    databases: &[Database<'_>],
    folder: &mut F,
) -> Result<Vec<Option<Vec<u8>>>, Refusal>
    ensures ok { IfOk result (λ items. HasRead F.Folder folder.old folder.new
        (database_reads (map database_of databases.now) (map bytes_of items.items))) }
    ensures each { IfOk result (λ items. length items.items ≡ length databases.now) }
    ensures err { IfErr result (λ refusal. (n : ℕ) → Decides F.Folder folder.old folder.new n
        (λ reads. WithDatabases reads n (map database_of databases.now) NoItems) (Err refusal)) }
{
    let mut items = Vec::new(alloc);
    for database in databases {
        items.push(read_database(alloc, *database, folder)?)?;
    }
    Ok(items)
}

/// The bytes of a database, if there is one.
fn read_database<F: Folder>(
    alloc: Global,
    database: Database<'_>,
    folder: &mut F,
) -> Result<Option<Vec<u8>>, Refusal>
    ensures ok { IfOk result (λ found. HasRead F.Folder folder.old folder.new
        (one_read (database_file (database_of database.entry)) (found_read (bytes_of found)))) }
    ensures err { IfErr result (λ refusal. (n : ℕ) → Decides F.Folder folder.old folder.new n
        (λ reads. OrNoDatabase (database_file (database_of database.entry)) (reads n (database_file (database_of database.entry))) NothingIfAny) (Err refusal)) }
{
    let name = file_name(alloc, database)?;
    file_if_any(alloc, folder, name.as_str())
}
