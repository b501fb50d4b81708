//! Writing into bytes that were lent.
ghost use Rattle.std.specs.Prelude.{◌≡◌, ℕ, ◌+◌, ◌≤◌, List, ◌++◌, length};
ghost use Rattle.bridge.specs.Laid.{fitted, laid};

/// Writes behind what was laid so far.
pub(crate) fn put(out: &mut [u8], at: usize, bytes: &[u8])
    requires { at + length bytes.now ≤ length out.old }
    ensures laid { (xs old : List ℕ) → length xs ≡ at → out.old ≡ laid xs old → out.new ≡ laid (xs ++ bytes.now) old }
    ensures length { length out.new ≡ length out.old }
{
    out[at..at + bytes.len()].copy_from_slice(bytes);
}

/// Writes the bytes if there is room for all of them; answers how many they are.
pub(crate) fn fit(out: &mut [u8], bytes: &[u8]) -> usize
    ensures size { result ≡ length bytes.now }
    ensures fitted { out.new ≡ fitted bytes.now out.old }
{
    if bytes.len() <= out.len() {
        put(out, 0, bytes);
    }
    bytes.len()
}
