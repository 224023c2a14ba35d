// Rows of bytes for the output: each is stored whole, or, where it has no room, not at all.
ghost use Rattle.std.specs.Prelude.{◌≤◌, length};
ghost use Rattle.cable.specs.Put.{Puts};

// Stores a row from a place on, and says which place is behind it. Where it does not fit, nothing is stored.
pub(crate) fn send<const N: usize>(row: [u8; N], out: &mut [u8], to: usize) -> Option<usize>
    requires { to ≤ length out.old }
    ensures { Puts row.entry to out.old result out.new }
{
    if out.len() - to < N {
        return None;
    }
    out[to..to + N].copy_from_slice(&row);
    Some(to + N)
}
