// The library's version. It has a crate of its own, because nothing else depends on it and an edit of it is then checked in a second.
#![tactic(auto)]

ghost use Rattle.std.specs.Prelude.{◌≡◌};
ghost use Rattle.release.specs.Version.{version};

pub fn version() -> u32
    ensures { result ≡ version }
{
    800
}
