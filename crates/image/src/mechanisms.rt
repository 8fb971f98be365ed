// The mechanisms of an image tested where they stand, with no record read by value.
ghost use Rattle.std.specs.Prelude.{◌≡◌, ◌&&◌, ◌+◌, ◌*◌, ◌≤◌, length};
ghost use Rattle.octets.specs.Lists.{same};
ghost use Rattle.codec.specs.Codec.{octet, get_array};
ghost use Rattle.codec.specs.InPlace.{every_at};
ghost use Rattle.lines.specs.Mechanism.{longest_mechanism};
ghost use Rattle.server.specs.Limits.{most_mechanisms};
ghost use Rattle.server.specs.WellFormed.{apart, same_name, mechanism_within};
ghost use Rattle.image.specs.InPlace.{mechanism_offset};
ghost use Rattle.image.specs.Layout.{mechanism};
ghost use Rattle.image.specs.Private.{may_stand_at, mechanism_fits, mechanisms_fit, is_other_at};
ghost use Rattle.image.specs.Sizes.{mechanism_size};

use crate::OCTETS;
use crate::leaves::{are_zeros, read_number};
use crate::sizes::{
    MECHANISM, MECHANISM_CLIENT_FIRST, MECHANISM_NEEDS_PROTECTION, SERVER_MECHANISMS,
};
use lines::mechanism::is_mech_char;
use server::MOST_MECHANISMS;

// ---- one mechanism

// Whether the octet at an index may stand there in a name that is padded with NUL, by what follows it: an octet of a name, or NUL before NUL.
fn may_stand(image: &[u8], at: usize) -> bool
    requires { at + 2 ≤ length image.now }
    ensures { result ≡ may_stand_at image.now at }
{
    is_mech_char(image[at]) | (image[at] == 0) & (image[at + 1] == 0)
}

// Whether each of 16 octets may. A function of its own, called twice: so the compiler looks at all of them at once.
fn may_all_stand(image: &[u8], at: usize) -> bool
    requires { at + 17 ≤ length image.now }
    ensures { result ≡ every_at (may_stand_at image.now) 1 16 at }
{
    let mut ok = true;
    for i in 0..16 {
        ok = ok & may_stand(image, at + i);
    }
    ok
}

// Whether the twenty octets at an index are a name, padded with NUL. The last four are NUL in most names; else two pieces share octets.
#[tactic(auto, using(crate::proofs::Table::short_name, crate::proofs::Table::long_name))]
fn is_name(image: &[u8], at: usize) -> bool
    requires { at + longest_mechanism ≤ length image.now }
    ensures { result ≡ mechanism_within (mechanism.get image.now at) }
{
    let starts = (image[at] != 0) & may_all_stand(image, at);
    if are_zeros(image, at + 16, 4) {
        return starts;
    }
    let last = image[at + 19];
    starts & (may_all_stand(image, at + 3) & (is_mech_char(last) | (last == 0)))
}

// A mechanism: two yes-or-nos and a name.
#[tactic(auto, using(crate::proofs::Table::mechanism_tests))]
fn mechanism_fits(image: &[u8], at: usize) -> bool
    requires { at + mechanism_size ≤ length image.now }
    ensures { result ≡ mechanism_fits image.now at }
{
    let flags = (image[at + MECHANISM_CLIENT_FIRST] <= 1)
        & (image[at + MECHANISM_NEEDS_PROTECTION] <= 1);
    flags & is_name(image, at)
}

// ---- two names

// Whether the names at two indices are the same, compared as numbers of eight octets. The last two share octets. Not by == of two slices:
// the loop over the names calls this with no branch, and a comparison of slices is a call.
fn same_name(image: &[u8], at: usize, other: usize) -> bool
    requires { (at + longest_mechanism ≤ length image.now) × (other + longest_mechanism ≤ length image.now) }
    ensures { result ≡ same (get_array octet longest_mechanism image.now at) (get_array octet longest_mechanism image.now other) }
{
    if read_number(image, at) != read_number(image, other) {
        return false;
    }
    let middle = read_number(image, at + 8) == read_number(image, other + 8);
    middle & (read_number(image, at + 12) == read_number(image, other + 12))
}

// Whether none of the n mechanisms after the one at an index has its name.
fn is_new_name(image: &[u8], at: usize, n: usize) -> bool
    requires { at + mechanism_size + n * mechanism_size ≤ length image.now }
    ensures { result ≡ every_at (is_other_at image.now at) mechanism_size n (at + mechanism_size) }
{
    let mut ok = true;
    for i in 0..n {
        ok = ok & !same_name(image, at, at + MECHANISM + i * MECHANISM);
    }
    ok
}

// ---- the table

// Whether the first so many records are mechanisms whose names differ.
fn records_fit(image: &[u8; OCTETS], count: usize) -> bool
    requires { count ≤ most_mechanisms }
    ensures { result ≡ (every_at (mechanism_fits image.now) mechanism_size count (mechanism_offset 0) && apart same_name (get_array mechanism count image.now (mechanism_offset 0))) }
{
    let mut ok = true;
    for i in 0..count {
        let at = SERVER_MECHANISMS + 1 + i * MECHANISM;
        ok = ok & (mechanism_fits(image, at) & is_new_name(image, at, count - (i + 1)));
    }
    ok
}

// The records that are not used are zeros.
#[tactic(auto, using(crate::proofs::Table::table_many, crate::proofs::Table::table_fits))]
pub(crate) fn mechanisms_fit(image: &[u8; OCTETS]) -> bool
    ensures { result ≡ mechanisms_fit image.now }
{
    let count = usize::from(image[SERVER_MECHANISMS]);
    if MOST_MECHANISMS < count {
        return false;
    }
    let unused = SERVER_MECHANISMS + 1 + count * MECHANISM;
    records_fit(image, count) & are_zeros(image, unused, (MOST_MECHANISMS - count) * MECHANISM)
}
