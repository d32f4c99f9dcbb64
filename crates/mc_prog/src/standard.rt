// The names that every source knows and none declares.

ghost use Rattle.std.specs.Prelude.{◌≡◌};
ghost use Rattle.mc_prog.specs.Standard.{is_standard};

/// Whether a name is a standard one.
pub fn is_standard(name: &[u8]) -> bool
    ensures { result ≡ is_standard name.now }
{
    name == b"integer".as_slice()
        || name == b"Boolean".as_slice()
        || name == b"char".as_slice()
        || name == b"bits".as_slice()
        || name == b"signal".as_slice()
        || name == b"true".as_slice()
        || name == b"false".as_slice()
        || name == b"wait".as_slice()
        || name == b"send".as_slice()
        || name == b"awaited".as_slice()
        || name == b"doio".as_slice()
}
