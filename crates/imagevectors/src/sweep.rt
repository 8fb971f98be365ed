// An image with one bit turned, for each octet: how many of these images are taken, and the sum of their offsets modulo 65536.
use image::OCTETS;
use std::io;

// Turns bit i modulo 8 of octet i.
fn turn(image: &mut [u8], i: usize) {
    if let Some(octet) = image.get_mut(i) {
        *octet ^= 1u8 << (i % 8);
    }
}

fn is_taken_with(image: &[u8], i: usize) -> bool {
    let mut other = [0u8; OCTETS];
    octets::write(image, &mut other, 0);
    turn(&mut other, i);
    image::is_taken(&other)
}

pub(crate) fn run(rt: &impl Print, image: &[u8], from: usize, to: usize) -> io::Result<()> {
    let mut count: u64 = 0;
    let mut sum: u64 = 0;
    for i in from..to {
        if is_taken_with(image, i) {
            count = count.wrapping_add(1);
            sum = sum.wrapping_add(i as u64);
        }
    }
    print!(rt; ": taken {count}, sum {}", sum % 65536)
}
