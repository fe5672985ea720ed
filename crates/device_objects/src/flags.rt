//! Sixteen flags as the bits of a number.

ghost use Rattle.std.specs.Prelude.{◌≡◌, ◌<◌, slice_set, take};
ghost use Rattle.std.specs.List.{list_all};
ghost use Rattle.device_objects.specs.Flags.{flags, is_set};

/// Whether this flag is set.
pub fn is_set(mask: u16, i: usize) -> bool
    requires { i < 16 }
    ensures { result ≡ is_set mask i }
{
    mask >> i & 1 == 1
}

/// The flags with this one set, or not set; the others stay.
pub fn with_flag(mask: u16, i: usize, on: bool) -> u16
    requires { i < 16 }
    ensures { flags result ≡ slice_set (flags mask) i on }
{
    if on { mask | 1 << i } else { mask & !(1 << i) }
}

/// Whether so many flags, from flag 0 on, are all set.
pub fn are_set(mask: u16, count: usize) -> bool
    ensures { result ≡ list_all (λ d. d) (take count (flags mask)) }
{
    mask.trailing_ones() as usize >= count.min(16)
}

/// The flags that a number keeps.
pub fn flags_of(mask: u16) -> [bool; 16]
    ensures { result ≡ flags mask }
{
    let mut all = [false; 16];
    for i in 0..16 {
        all[i] = is_set(mask, i);
    }
    all
}

/// The number that keeps these flags.
pub fn mask_of(all: &[bool; 16]) -> u16
    ensures { flags result ≡ all.now }
{
    let mut mask = 0;
    for i in 0..16 {
        mask = with_flag(mask, i, all[i]);
    }
    mask
}
