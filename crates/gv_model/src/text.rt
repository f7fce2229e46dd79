//! Laws of text: its tokens, its syntax tree or first fault, and the type that is chosen for a tree.

ghost use Rattle.gv_model.specs.TextLaws.{EachTextLexes, HasOneLexing, StringIsParts, ByteStringIsParts, StringsArePlain, NoTreeBeginsAnother, TreesHaveNoFault, FaultlessIsTree, FaultEndsPrefix, EndsOnePrefix, EachTextParses, HasOneOutcome, AdmitsOrNot, IsBelowItself, IsBelowThird, IsBelowOneWay, HasOneChosen};
ghost use Rattle.gv_model.specs.PrintedLaws.{PrintedReadsBack};
ghost use Rattle.gv_model.specs.LeastTypes.{choice};
ghost use Rattle.gv_model.specs.TextValues.{IsChoice};

/// Each text has one list of tokens, up to its end or its first fault.
pub fn one_list_of_tokens()
    ensures some { EachTextLexes }
    ensures alone { HasOneLexing }
{}

/// A string's token is a quote, its parts and that quote again: each part is a character or an escape, and the
/// string is what they stand for, one after another. So is a byte string's, after its `b`.
pub fn string_is_parts()
    ensures string { StringIsParts }
    ensures bytes { ByteStringIsParts }
{}

/// The strings in a text's syntax tree have no zero byte. Its byte strings may.
pub fn strings_are_plain()
    ensures { StringsArePlain }
{}

/// No syntax tree's tokens begin another's, so tokens are of one tree at most.
pub fn no_tree_begins_another()
    ensures { NoTreeBeginsAnother }
{}

/// Tokens are those of a tree within the depth exactly where they have no fault.
pub fn faultless_where_tree()
    ensures faultless { TreesHaveNoFault }
    ensures whole { FaultlessIsTree }
{}

/// Tokens that are no tree's have their fault where the longest prefix of them ends that begins some tree's tokens
/// and no value too deep; at the end of the tokens it names the innermost open bracket. Of no other fault is that so.
pub fn fault_ends_prefix()
    ensures prefix { FaultEndsPrefix }
    ensures alone { EndsOnePrefix }
{}

/// Each text has a syntax tree or a first fault, and one of them alone.
pub fn tree_or_fault()
    ensures some { EachTextParses }
    ensures alone { HasOneOutcome }
{}

/// Whether a syntax tree admits a type is decided.
pub fn admits_or_not()
    ensures { AdmitsOrNot }
{}

/// The order on types is reflexive, transitive and antisymmetric.
pub fn types_are_ordered()
    ensures reflexive { IsBelowItself }
    ensures transitive { IsBelowThird }
    ensures antisymmetric { IsBelowOneWay }
{}

/// At most one type is the least that a syntax tree admits.
pub fn one_chosen_type()
    ensures { HasOneChosen }
{}

/// Joining the sets of types that the parts of a syntax tree admit leads to the least type that the whole admits,
/// or to why there is none.
pub fn joining_chooses()
    ensures { IsChoice choice }
{}

/// What is printed for a value is read back: the text parses, the type that is chosen for it is the
/// value's, and its value at that type is that value. So it is of each value whose type is within
/// the limits, that holds no double and is at most 127 deep.
pub fn printed_reads_back()
    ensures { PrintedReadsBack }
{}
