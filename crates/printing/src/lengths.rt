// The bundles of a file that has several, one behind the other.
ghost use Rattle.std.specs.Prelude.{◌≤◌, ◌<◌, length};

// How many bytes the bundle in front has, its first length included; all where it says more.
pub(crate) fn size(s: &[u8]) -> usize
    ensures some { 0 < length s.now → 0 < result }
    ensures within { result ≤ length s.now }
{
    let Some((length, rest)) = s.split_first_chunk() else {
        return s.len();
    };
    rest.len().min(u32::from_be_bytes(*length) as usize) + 4
}
