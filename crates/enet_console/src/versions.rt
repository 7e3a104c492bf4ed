//! Which version of the program this is.

ghost use Rattle.std.specs.Prelude.{◌≡◌};
ghost use Rattle.enet_console.specs.Versions.{told};

/// What `--version` tells behind the program's name: the version, which is the one in the file VERSION, and the kit that proves it, as
/// `rt version` names it.
pub fn version() -> &'static str
    ensures { result.now ≡ told }
{
    "0.1.0 (rattle-kit-13f logic dac8208d650f15bf)"
}
