//! The examples at the heads of the crates: `tools/guarantees --check` sees that the two are alike.
use dconfdb_values::{child, number, text};
use gv_build::variant_bytes;
use gv_infer::read_value;
use gv_layout::{alignment, fixed_size, n_children};
use gv_normal::is_normal;
use gv_text::print;
use gv_tree::{Basic, Tree};
use gv_types::TypeStr;
use gv_view::View;
use std::alloc::Global;
use std::test::Fail;

fn of_gv_types() -> Result<bool, Fail> {
    let settings = TypeStr::parse("a{sv}")?;
    let key = settings.element().and_then(TypeStr::key);
    let wrong = TypeStr::parse("a{vs}");
    Ok(key.map(TypeStr::as_str) == Some("s") && wrong.is_err())
}

fn of_gv_layout() -> Result<bool, Fail> {
    let pair = TypeStr::parse("(yu)")?;
    let pairs = TypeStr::parse("a(yu)")?;
    let bytes = [0; 24];
    Ok(alignment(pair) == 4 && fixed_size(pair) == Some(8) && n_children(pairs, &bytes) == 3)
}

fn of_gv_view() -> Result<bool, Fail> {
    let numbers = View::new(TypeStr::parse("au")?, &[1, 0, 0, 0, 2, 0, 0, 0]);
    let second = numbers.child(1).and_then(View::as_u32);
    Ok(numbers.n_children() == 2 && second == Some(2))
}

fn of_gv_tree(alloc: Global) -> Result<bool, Fail> {
    let size = Tree::basic(alloc, Basic::Int32(24))?;
    let boxed = Tree::variant(alloc, size)?;
    Ok(boxed.type_text().as_str() == "v" && boxed.depth() == 2)
}

fn of_gv_build(alloc: Global) -> Result<bool, Fail> {
    let size = Tree::basic(alloc, Basic::Int32(24))?;
    let bytes = variant_bytes(alloc, &size)?;
    Ok(bytes.as_slice() == [24, 0, 0, 0, 0, b'i'].as_slice())
}

fn of_gv_normal() -> Result<bool, Fail> {
    let truth = TypeStr::parse("b")?;
    Ok(is_normal(View::new(truth, &[1])) && !is_normal(View::new(truth, &[5])))
}

fn of_gv_text(alloc: Global) -> Result<bool, Fail> {
    let numbers = View::new(TypeStr::parse("au")?, &[1, 0, 0, 0, 2, 0, 0, 0]);
    let text = print(alloc, numbers)?;
    Ok(text.as_str() == "[uint32 1, 2]")
}

fn of_gv_infer(alloc: Global) -> Result<bool, Fail> {
    let numbers = read_value(alloc, "[1, @x 2]")?;
    Ok(numbers.type_text().as_str() == "ax")
}

fn of_dconfdb_values() -> Option<bool> {
    let size = number(b"i", &[7, 0, 0, 0], b'i')?;
    let second = child(b"as", b"one\0two\0\x04\x08", 1, &mut 0)?;
    Some(size == 7 && text(second.type_text, second.value)? == "two")
}

#[test]
fn each_example_is_so(rt: HostRuntime) -> Result<(), Fail> {
    let alloc = rt.alloc();
    let types = of_gv_types()? && of_gv_layout()? && of_gv_view()? && of_gv_normal()?;
    let values = of_gv_tree(alloc)? && of_gv_build(alloc)?;
    assert!(rt; types && values && of_gv_text(alloc)? && of_gv_infer(alloc)?);
    assert!(rt; of_dconfdb_values() == Some(true));
    Ok(())
}
