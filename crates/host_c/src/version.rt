// The version of the calls and of the words that cross: BURIAL_VERSION of include/burial_register.h.
ghost use Rattle.host.specs.Version.{VersionPromise};

// Which version is linked.
#[unsafe(no_mangle)]
pub extern "C" fn burial_version() -> u32
    ensures { VersionPromise result }
{
    host::version::burial_version()
}
