// One value where it stands: an octet, a number in eight octets, the least significant first, a yes-or-no, a run of octets. Each is read at an index of
// the octets, as the definitions of the layout read it, and asks that it ends within them.
#![tactic(auto, using(crate::proofs::Values::values))]

ghost use Rattle.std.specs.Prelude.{◌≡◌, ◌+◌, ◌≤◌, ◌<◌, length, get_or, replicate};
ghost use Rattle.codec.specs.Codec.{octet, put_octet, put_number, get_number, get_array, bit, is_one};
ghost use Rattle.codec.specs.Stored.{stored};
ghost use Rattle.codec.specs.InPlace.{stands_at};

// So many octets from an index on.
pub(crate) fn read_octets<const N: usize>(image: &[u8], at: usize) -> [u8; N]
    requires { at + N ≤ length image.now }
    ensures { result ≡ get_array octet N image.now at }
{
    let mut octets = [0; N];
    octets.copy_from_slice(&image[at..at + N]);
    octets
}

pub(crate) fn write_octets(image: &mut [u8], at: usize, octets: &[u8])
    requires { at + length octets.now ≤ length image.old }
    ensures { image.new ≡ stored image.old at octets.now }
{
    image[at..at + octets.len()].copy_from_slice(octets);
}

pub(crate) fn read_number(image: &[u8], at: usize) -> u64
    requires { at + 8 ≤ length image.now }
    ensures { result ≡ get_number 8 image.now at }
{
    u64::from_le_bytes(read_octets(image, at))
}

pub(crate) fn write_number(image: &mut [u8], at: usize, number: u64)
    requires { at + 8 ≤ length image.old }
    ensures { image.new ≡ stored image.old at (put_number 8 number) }
{
    write_octets(image, at, &number.to_le_bytes());
}

pub(crate) fn read_flag(image: &[u8], at: usize) -> bool
    requires { at < length image.now }
    ensures { result ≡ is_one (get_or image.now at 0) }
{
    image[at] == 1
}

pub(crate) fn write_flag(image: &mut [u8], at: usize, flag: bool)
    requires { at < length image.old }
    ensures { image.new ≡ stored image.old at (put_octet (bit flag)) }
{
    image[at] = u8::from(flag);
}

// Whether so many octets from index at on are NUL. It looks at all of them: no branch in the loop.
pub(crate) fn are_zeros(image: &[u8], at: usize, count: usize) -> bool
    requires { at + count ≤ length image.now }
    ensures { result ≡ stands_at (replicate count 0) image.now at }
{
    image[at..at + count]
        .iter()
        .fold(true, |zeros, x| zeros & (*x == 0))
}
