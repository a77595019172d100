// Addresses as they are written in a script.
ghost use Rattle.std.specs.Prelude.{◌≡◌, ℕ, List, Option};
ghost use Rattle.std.specs.Option.{option_map};
ghost use Rattle.script.specs.Addresses.{octet_of, group_of, four_digits_of, part_before, parts_before, v4_of, v6_of, address_of};

use crate::cut::split_once;
use crate::number::{hex_pair, read_number};
use carrier::IpAddr;

// A number of an IPv4 address, or a group of an IPv6 address.
trait AddressPart: Sized {
    // The byte between two parts.
    const SEPARATOR: u8;

    ghost SEPARATOR: { ℕ };

    ghost part_of: { List ℕ → Option Self };

    fn read(text: &[u8]) -> Option<Self>
        ensures { result ≡ part_of text.now };
}

impl AddressPart for u8 {
    const SEPARATOR: u8 = b'.';

    ghost SEPARATOR = { 46 };

    ghost part_of = { octet_of };

    fn read(text: &[u8]) -> Option<u8> {
        u8::try_from(read_number(text).ok()?).ok()
    }
}

impl AddressPart for u16 {
    const SEPARATOR: u8 = b':';

    ghost SEPARATOR = { 58 };

    ghost part_of = { group_of };

    fn read(text: &[u8]) -> Option<u16> {
        match text {
            [a] => four_digits(b'0', b'0', b'0', *a),
            [a, b] => four_digits(b'0', b'0', *a, *b),
            [a, b, c] => four_digits(b'0', *a, *b, *c),
            [a, b, c, d] => four_digits(*a, *b, *c, *d),
            _ => None,
        }
    }
}

// An IPv4 address is four numbers up to 255 with dots between them; an IPv6 address is eight groups of one to four
// hexadecimal digits with colons between them.
pub(crate) fn read_address(word: &[u8]) -> Option<IpAddr>
    ensures { result ≡ address_of word.now }
{
    match split_once(word, b':') {
        Some(_) => read_v6(word),
        None => read_v4(word),
    }
}

fn read_v4(word: &[u8]) -> Option<IpAddr>
    ensures { result ≡ v4_of word.now }
{
    let mut rest = word;
    let [a, b, c] = parts_before::<u8, 3>(&mut rest)?;
    let d = u8::read(rest)?;
    Some(IpAddr::V4([a, b, c, d]))
}

fn read_v6(word: &[u8]) -> Option<IpAddr>
    ensures { result ≡ v6_of word.now }
{
    let mut rest = word;
    let [a, b, c, d, e, f, g] = parts_before::<u16, 7>(&mut rest)?;
    let h = u16::read(rest)?;
    Some(IpAddr::V6([a, b, c, d, e, f, g, h]))
}

// The parts before the first separators; what follows these is left.
fn parts_before<P: AddressPart + Copy + Default, const N: usize>(rest: &mut &[u8]) -> Option<[P; N]>
    ensures { option_map (λ ps. (ps, rest.new.now)) result ≡ parts_before P.SEPARATOR P.part_of N rest.old.now }
{
    let mut parts = [P::default(); N];
    for place in parts.iter_mut() {
        let (part, behind) = part_before(*rest)?;
        *place = part;
        *rest = behind;
    }
    Some(parts)
}

// The part before the first separator, and what follows the separator.
fn part_before<P: AddressPart>(text: &[u8]) -> Option<(P, &[u8])>
    ensures { option_map (λ p. (p.0, p.1.now)) result ≡ part_before P.SEPARATOR P.part_of text.now }
{
    let (front, rest) = split_once(text, P::SEPARATOR)?;
    Some((P::read(front)?, rest))
}

fn four_digits(a: u8, b: u8, c: u8, d: u8) -> Option<u16>
    ensures { result ≡ four_digits_of a b c d }
{
    let high = hex_pair(a, b)?;
    let low = hex_pair(c, d)?;
    Some(u16::from_be_bytes([high, low]))
}
