//! What GVariant means: definitions of types, values, bytes and text in specs/, and their laws as
//! functions with empty bodies, whose contracts are the laws. There is no program code here: nothing is
//! computed when the functions are called, and nothing fails.
#![tactic(auto)]

pub mod text;

ghost use Rattle.gv_model.specs.Laws.{WrittenReadsBack, ContainerIsPacked, NoTypeBeginsAnother, HasTypeWhereSpelled, EmptyReadsAsDefault, ReadsAtType, IsReading, IsOnlyReading, HasChildrenOfCut, ChildIsRead, FaultsAreOfNoType, HasOneFault, ChildrenLieWithin, EveryPartIsRead};
ghost use Rattle.gv_model.specs.Laws.{HasFewValues, IsEarlierReading, IsOnlyEarlierReading, AsNormalAsEarlier, NormalReadsAsEarlier};
ghost use Rattle.gv_model.specs.Decode.{decode};
ghost use Rattle.gv_model.specs.EarlierReading.{earlier_decode};

/// No type's text begins another's, so a sequence of types is read in one way only.
pub fn no_type_begins_another()
    ensures { NoTypeBeginsAnother }
{}

/// A text has a type exactly where it is that type's spelling, within the limits of depth and length.
pub fn has_type_where_spelled()
    ensures { HasTypeWhereSpelled }
{}

/// A text with a fault has no type.
pub fn faults_are_of_no_type()
    ensures { FaultsAreOfNoType }
{}

/// A text has one fault only.
pub fn one_fault()
    ensures { HasOneFault }
{}

/// The value of a container's bytes is the tree over the values of its children's bytes, and no other
/// function from types and bytes to trees reads so.
pub fn one_reading()
    ensures reads { IsReading decode }
    ensures alone { IsOnlyReading }
{}

/// A value has as many children as its bytes are cut into, and child i is the value of child i's bytes.
pub fn children_are_read()
    ensures count { HasChildrenOfCut }
    ensures each { ChildIsRead }
{}

/// Each child lies within its container's bytes, and ends no earlier than it begins.
pub fn children_lie_within()
    ensures { ChildrenLieWithin }
{}

/// What is found in a value by following children, any number of times, is the value of the bytes that are
/// found so.
pub fn every_part_is_read()
    ensures { EveryPartIsRead }
{}

/// Whatever bytes are read at a type, the value is of that type.
pub fn reads_at_type()
    ensures { ReadsAtType }
{}

/// No bytes read as the default of every type.
pub fn empty_reads_as_default()
    ensures { EmptyReadsAsDefault }
{}

/// What is written for a value of a type is read back as that value.
pub fn written_reads_back()
    ensures { WrittenReadsBack }
{}

/// A container's bytes are what is written for its value exactly where each child's are, and the container is packed of
/// its children's.
pub fn container_is_packed()
    ensures { ContainerIsPacked }
{}

/// Bytes have no more values in them than `(n + 1)(n + 2t)`, where there are `n` of them and the type's text has `t`.
pub fn few_values()
    ensures { HasFewValues }
{}

/// As GLib before 2.74 read, the value of a container's bytes is the tree over the values of its
/// children's bytes, and no other function from types and bytes to trees reads so.
pub fn one_earlier_reading()
    ensures reads { IsEarlierReading earlier_decode }
    ensures alone { IsOnlyEarlierReading }
{}

/// The bytes that are normal are those that were normal when a child was read whatever those before it, as GLib before
/// 2.74 did, and their value is the same.
pub fn normal_as_earlier()
    ensures normal { AsNormalAsEarlier }
    ensures value { NormalReadsAsEarlier }
{}
