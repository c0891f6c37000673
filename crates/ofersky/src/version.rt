// The library's version, which a host compares with that of its header.
ghost use Rattle.std.specs.Prelude.{◌≡◌};
ghost use Rattle.release.specs.Version.{version};

#[unsafe(no_mangle)]
pub extern "C" fn ofersky_version() -> u32
    ensures { result ≡ version }
{
    release::version()
}
