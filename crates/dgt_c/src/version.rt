//! The version of the library for C.

ghost use Rattle.std.specs.Prelude.{◌≡◌, ◌+◌, ◌*◌};

pub const VERSION_MAJOR: u32 = 1;

pub const VERSION_MINOR: u32 = 0;

pub const VERSION_PATCH: u32 = 0;

/// The version as one number, with three digits for each part: 1.2.3 is 1002003.
pub const VERSION: u32 = VERSION_MAJOR * 1_000_000 + VERSION_MINOR * 1_000 + VERSION_PATCH;

/// The version of the library, [`VERSION`].
#[unsafe(no_mangle)]
pub extern "C" fn dgt_version() -> u32
    ensures parts { result ≡ VERSION_MAJOR * 1000000 + VERSION_MINOR * 1000 + VERSION_PATCH }
    ensures number { result ≡ 1000000 }
{
    VERSION
}
