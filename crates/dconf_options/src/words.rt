//! What a word is by itself.
ghost use Rattle.std.specs.Prelude.{◌≡◌};
ghost use Rattle.dconf_options.specs.Words.{is_help, is_name, lint_option, watch_option, word_of};

/// What a word is, if no option waits for its argument and no `--` came before.
#[derive(Clone, Copy)]
pub(crate) enum Word {
    /// It begins no option.
    Name,
    Help,
    /// `--`: what follows are names.
    Divider,
    /// The option whose argument is a folder, `--store` of `watch` and `--schemas` of `lint`: the argument is the next word, or behind a `=`.
    WantsFolder,
    Folder,
    /// `--schema`.
    WantsSchema,
    Schema,
    /// `--user`.
    User,
    /// `--json`.
    Json,
    Unknown,
}

pub(crate) fn word_of(is_lint: bool, word: &[u8]) -> Word
    ensures { result ≡ word_of is_lint word.now }
{
    if is_name(word) {
        return Word::Name;
    }
    if is_help(word) {
        return Word::Help;
    }
    if word == "--".as_bytes() {
        return Word::Divider;
    }
    if is_lint {
        return lint_option(word);
    }
    watch_option(word)
}

/// A minus sign alone is a name.
fn is_name(word: &[u8]) -> bool
    ensures { result ≡ is_name word.now }
{
    !word.starts_with(b"-") || word == "-".as_bytes()
}

fn is_help(word: &[u8]) -> bool
    ensures { result ≡ is_help word.now }
{
    word == "-h".as_bytes() || word == "--help".as_bytes()
}

fn watch_option(word: &[u8]) -> Word
    ensures { result ≡ watch_option word.now }
{
    if word == "--store".as_bytes() {
        return Word::WantsFolder;
    }
    if word.starts_with(b"--store=") {
        return Word::Folder;
    }
    if word == "--user".as_bytes() {
        return Word::User;
    }
    Word::Unknown
}

fn lint_option(word: &[u8]) -> Word
    ensures { result ≡ lint_option word.now }
{
    if word == "--schemas".as_bytes() {
        return Word::WantsFolder;
    }
    if word.starts_with(b"--schemas=") {
        return Word::Folder;
    }
    if word == "--schema".as_bytes() {
        return Word::WantsSchema;
    }
    if word.starts_with(b"--schema=") {
        return Word::Schema;
    }
    if word == "--json".as_bytes() {
        return Word::Json;
    }
    Word::Unknown
}
