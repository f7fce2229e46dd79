//! Reading what was printed.
ghost use Rattle.gv_infer.specs.PrintedTexts.{PrintedIsRead};

/// What is printed for a value is read as that value, or the reading is out of memory. So it is of
/// each value whose type is within the limits, that holds no double and is at most 127 deep: what
/// `read_value` promises of the text that `print` of gv_text promises comes to that value.
///
/// It is a law: nothing is computed.
pub fn printed_is_read()
    ensures { PrintedIsRead }
{}
