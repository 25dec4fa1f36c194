// The version of the interface for C.
ghost use Rattle.std.specs.Prelude.{◌≡◌};
ghost use Rattle.ffi.specs.Types.{version};

// CHROMA_VERSION of the header that this library goes with.
pub fn chroma_version() -> u32
    ensures { result ≡ version }
{
    2_560
}
