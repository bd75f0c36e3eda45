// The version of the library, as include/catalogue.h has it: a host holds it against its header.
ghost use Rattle.std.specs.Prelude.{◌≡◌};
ghost use Rattle.host.specs.Version.{version_number};

#[unsafe(no_mangle)]
pub extern "C" fn catalogue_version() -> u32
    ensures { result ≡ version_number }
{
    host::version::catalogue_version()
}
