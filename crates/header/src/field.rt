// A field of a 32-bit word, by the place of its lowest bit and its width.
ghost use Rattle.std.specs.Prelude.{◌≡◌, ◌+◌, ◌≤◌, ◌<◌, ◌^◌};
ghost use Rattle.ground.specs.Field.{field, with_field};

// The field that is `width` bits wide, its lowest bit at `low`.
pub(crate) fn field(w: u32, low: u32, width: u32) -> u32
    requires { (low < 32) × (width < 32) }
    ensures { result ≡ field low width w }
{
    (w >> low) % (1 << width)
}

// The word with that field made `x`, and every other bit as it was.
pub(crate) fn with_field(w: u32, low: u32, width: u32, x: u32) -> u32
    requires { (low < 32) × (width < 32) × (low + width ≤ 32) × (x < 2 ^ width) }
    ensures { result ≡ with_field low width w x }
{
    w - (field(w, low, width) << low) + (x << low)
}
