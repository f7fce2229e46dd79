//! Blanks at the ends of a text: spaces and tabs, and at the end of a line carriage returns too.
ghost use Rattle.std.specs.Prelude.{◌≡◌};
ghost use Rattle.dconf_model.specs.Lines.{is_line_blank, is_space, without_end, without_start};
ghost use Rattle.dconf_model.specs.Keyfiles.{without_blanks};

/// A line without the blanks at its ends.
pub(crate) fn trim_line(line: &str) -> &str
    ensures { result.now ≡ without_blanks line.now }
{
    trim_start(line.trim_end_matches([' ', '\t', '\r']))
}

/// A text without the spaces and tabs at its start.
pub(crate) fn trim_start(text: &str) -> &str
    ensures { result.now ≡ without_start is_space text.now }
{
    text.trim_start_matches([' ', '\t'])
}

/// A text without the spaces and tabs at its end.
pub(crate) fn trim_end(text: &str) -> &str
    ensures { result.now ≡ without_end is_space text.now }
{
    text.trim_end_matches([' ', '\t'])
}
