//! The folders of `$XDG_DATA_DIRS`.
ghost use Rattle.std.specs.Prelude.{◌≡◌, option_map};
ghost use Rattle.dconf_homes.specs.Sought.{data_or_usual, dir_at};

/// Those where it isn't set.
const USUAL: &str = "/usr/local/share/:/usr/share/";

fn data_or_usual(text: &[u8]) -> &[u8]
    ensures { result.now ≡ data_or_usual text.now }
{
    if text.is_empty() {
        USUAL.as_bytes()
    } else {
        text
    }
}

/// One of them, counted from 0.
pub(crate) fn dir_at(text: &[u8], number: usize) -> Option<&[u8]>
    ensures { option_map (λ dir. dir.now) result ≡ dir_at text.now number }
{
    data_or_usual(text).split(|c| *c == b':').nth(number)
}
