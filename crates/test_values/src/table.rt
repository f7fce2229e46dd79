//! What the tables of texts ask.
use crate::samples::view;
use crate::{forms, layout, texts, trees, typed_reads, types, views};
use gv_view::View;
use std::alloc::Global;
use std::test::Fail;
use test_rows::{Question, bytes_of};

/// What a table asks of its texts. The text of a view is its type, and then the words of its bytes.
#[derive(Clone, Copy)]
pub(crate) enum TableOf {
    /// The type at the start of the text.
    Type,
    /// The same, of a copy that was read.
    CopiedType,
    /// Of a type, ` after ` and a place: the alignment, the size and the place of a value.
    Layout,
    /// The tokens and where they are, or why there are none.
    Tokens,
    /// The syntax.
    Syntax,
    /// Of a text, ` at ` and a type: the text's own type, and its value at that type.
    ValueAt,
    /// Of a letter, and a value after it: the basic tree.
    Basic,
    /// Of a container's letter, an element's type and the texts of the parts: the tree.
    Container,
    /// Of a type: how often an empty maybe of it can be doubled.
    Doublings,
    /// Of two views with ` and ` between them: whether their trees are equal.
    Equal,
    /// The tree of a view.
    Tree,
    /// What the calls for a view's type read.
    Read,
    /// The text before its zero byte, and the text that all its bytes are.
    Texts,
    /// Where its children lie.
    Places,
    /// The bytes that are written for its value.
    Form,
    /// How many steps it takes to tell that the bytes are normal.
    Steps,
    /// Of `number i: `, a type and the words of its bytes: the number that C reads of it as an `i`; and so its text and its parts.
    Typed,
    /// The bytes that C is handed of a text's value, or the number of its fault and its place.
    Handed,
    /// How many bytes there are, whether they are normal, and how many levels and values they have.
    Told,
}

impl TableOf {
    /// Pushes what comes of a text.
    fn push_outcome(self, alloc: Global, to: &mut String, text: &str) -> Result<(), Fail> {
        match self {
            TableOf::Type => types::push_type(to, text),
            TableOf::CopiedType => types::push_copied(alloc, to, text),
            TableOf::Layout => layout::push_layout(to, text),
            TableOf::Tokens => texts::push_tokens(alloc, to, text),
            TableOf::Syntax => texts::push_syntax(alloc, to, text),
            TableOf::ValueAt => texts::push_value_at(alloc, to, text),
            TableOf::Basic => trees::push_basic(alloc, to, text),
            TableOf::Container => trees::push_container(alloc, to, text),
            TableOf::Doublings => trees::push_doublings(alloc, to, text),
            TableOf::Equal => trees::push_compared(alloc, to, text),
            TableOf::Tree => trees::push_read(alloc, to, text),
            TableOf::Typed => typed_reads::push_typed(alloc, to, text),
            TableOf::Handed => typed_reads::push_handed(alloc, to, text),
            _ => self.push_of_words(alloc, to, text),
        }
    }

    fn push_of_words(self, alloc: Global, to: &mut String, text: &str) -> Result<(), Fail> {
        let (of, words) = text.split_once(' ').unwrap_or((text, ""));
        let bytes = bytes_of(alloc, words)?;
        self.push_of_view(alloc, to, view(of, bytes.as_slice())?)
    }

    fn push_of_view(self, alloc: Global, to: &mut String, view: View<'_>) -> Result<(), Fail> {
        match self {
            TableOf::Read => views::push_read(to, view),
            TableOf::Texts => views::push_texts(to, view),
            TableOf::Places => layout::push_places(to, view),
            TableOf::Form => forms::push_form(alloc, to, view),
            TableOf::Steps => forms::push_steps(to, view),
            _ => forms::push_told(alloc, to, view),
        }
    }
}

impl Question for TableOf {
    fn answer(&mut self, alloc: Global, asked: &str, found: &mut String) -> Result<(), Fail> {
        self.push_outcome(alloc, found, asked)
    }
}
