//! Padding, and what lies between it.
ghost use Rattle.std.specs.Prelude.{◌≡◌, ◌≤◌, ◌<◌, ◌+◌, ◌*◌, ◌^◌, ◌↔◌, IsTrue, length};
ghost use Rattle.gv_model.specs.Layout.{offset_width};
ghost use Rattle.gv_model.specs.Encode.{zeros, least_width};
ghost use Rattle.gv_normal.specs.InPlace.{LiesAfter};

/// Whether all bytes are zero.
pub(crate) fn are_zero(bytes: &[u8]) -> bool
    ensures { IsTrue result ↔ (bytes.now ≡ zeros (length bytes.now)) }
{
    match bytes {
        [] => true,
        [first, rest @ ..] => *first == 0 && are_zero(rest),
    }
}

/// Whether a part that ends at `to` lies in order in a body, with zero bytes between it and what ends at `end`.
pub(crate) fn lies_after(body: &[u8], end: usize, from: usize, to: usize) -> bool
    requires { end ≤ from }
    ensures { IsTrue result ↔ LiesAfter body.now end from to }
{
    from <= to && to <= body.len() && are_zero(&body[end..from])
}

/// Whether so many offsets, which follow a body of so many bytes, are as narrow as they can be.
#[tactic(auto, unfolding(gv_model::specs::Encode::least_width, gv_model::specs::Layout::offset_width))]
pub(crate) fn is_narrow(body: usize, count: usize, width: usize) -> bool
    requires wide { 0 < width }
    requires some { 0 < count }
    requires width { width ≡ offset_width (body + width * count) }
    requires fits { body + width * count < 2 ^ 64 }
    ensures { IsTrue result ↔ (least_width body count ≡ width) }
{
    if width == 1 {
        return true;
    }
    if width == 2 {
        return body + count > 0xff;
    }
    if width == 4 {
        return body + 2 * count > 0xffff;
    }
    body + 4 * count > 0xffff_ffff
}
