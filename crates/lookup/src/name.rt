// Protocol names. The definitions are specs/Name.antt.
ghost use Rattle.std.specs.Prelude.{◌≡◌};
ghost use Rattle.lookup.specs.Name.{same_bytes, version_of};

// Whether two lists of bytes are the same.
fn same_bytes(a: &[u8], b: &[u8]) -> bool
    ensures { result ≡ same_bytes a.now b.now }
{
    a == b
}

// The version that a protocol name stands for.
pub fn version_of(name: &[u8]) -> Option<u64>
    ensures { result ≡ version_of name.now }
{
    if same_bytes(name, b"/meshsub/1.0.0") {
        return Some(0);
    }
    if same_bytes(name, b"/meshsub/1.1.0") {
        return Some(1);
    }
    if same_bytes(name, b"/meshsub/1.2.0") {
        return Some(2);
    }
    None
}
