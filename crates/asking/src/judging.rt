// Whether parts can be asked for: the causes of 1.
ghost use Rattle.std.specs.Prelude.{◌≡◌};
ghost use Rattle.answers.specs.Checks.{any};
ghost use Rattle.asking.specs.Writing.{out_of_range};

use super::Parts;

// A device over 31, a function over 7, an offset over FFCh or not a multiple of 4, enables over 15.
pub(super) fn is_out_of_range(parts: Parts) -> bool
    ensures { result ≡ any (out_of_range parts) }
{
    31 < parts.device
        || 7 < parts.function
        || 0xffc < parts.offset
        || parts.offset % 4 != 0
        || 15 < parts.enables
}
