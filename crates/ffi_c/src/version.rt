// The version of the interface for C, exported.
ghost use Rattle.std.specs.Prelude.{◌≡◌};
ghost use Rattle.ffi.specs.Types.{version};

// CHROMA_VERSION of the header that this library goes with.
#[unsafe(no_mangle)]
pub extern "C" fn chroma_version() -> u32
    ensures { result ≡ version }
{
    ffi::chroma_version()
}
