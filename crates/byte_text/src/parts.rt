//! Parts of bytes.
ghost use Rattle.std.specs.Prelude.{◌≡◌, drop};

/// The bytes but for the first `count`, none if there are no more.
pub fn after(bytes: &[u8], count: usize) -> &[u8]
    ensures { result.now ≡ drop count bytes.now }
{
    if count <= bytes.len() {
        &bytes[count..]
    } else {
        &[]
    }
}
