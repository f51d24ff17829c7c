// Numbers into the bytes of an answer, lowest first.
ghost use Rattle.std.specs.Prelude.{◌+◌, ◌≤◌, length};

// The low 32 bits of a length or an index: none here has more.
pub fn low(n: usize) -> u32 {
    (n % 0x1_0000_0000) as u32
}

pub fn put_four(out: &mut [u8], at: usize, n: u32)
    requires { at + 4 ≤ length out.old }
{
    out[at..at + 4].copy_from_slice(&n.to_le_bytes());
}
