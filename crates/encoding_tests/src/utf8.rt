// Samples of UTF-8. Each expected text is what Rust's `String::from_utf8_lossy(bytes).as_bytes()` gives (rustc 1.95).
use encoding::{Encoding, Utf8Encoding};
use std::process::Abort;

// Some bytes, and the text that they are decoded to.
#[derive(Clone, Copy)]
struct Sample(&'static [u8], &'static [u8]);

// Whether the bytes are decoded to the text, in as much of the area as that fills.
fn fills(sample: Sample, area: &mut [u8]) -> bool {
    let Sample(bytes, text) = sample;
    let Some(area) = area.get_mut(..text.len()) else {
        return false;
    };
    Utf8Encoding.decode(bytes, area) == Some(text.len()) && &*area == text
}

// Whether one byte less is refused.
fn refuses_less(sample: Sample, area: &mut [u8]) -> bool {
    let Sample(bytes, text) = sample;
    let Some((_, less)) = text.split_last() else {
        return false;
    };
    let Some(area) = area.get_mut(..less.len()) else {
        return false;
    };
    Utf8Encoding.decode(bytes, area).is_none()
}

// Whether the bytes are decoded to the text, and an area that is short of a byte is left as it was.
fn is_decoded(sample: Sample) -> bool {
    let mut area = [b'.'; 24];
    let untouched = refuses_less(sample, &mut area) && area == [b'.'; 24];
    untouched && fills(sample, &mut area)
}

fn check_all(rt: &impl Abort, samples: &[Sample]) {
    for sample in samples {
        assert!(rt; is_decoded(*sample));
    }
}

#[test]
fn whole_sequences(rt: HostRuntime) {
    let samples = [
        Sample(
            b"caf\xC3\xA9 \xE2\x82\xAC \xF0\x9F\x98\x80",
            b"caf\xC3\xA9 \xE2\x82\xAC \xF0\x9F\x98\x80",
        ),
        Sample(b"\x00\x7F\xC2\x80\xDF\xBF", b"\x00\x7F\xC2\x80\xDF\xBF"),
        Sample(
            b"\xE0\xA0\x80\xED\x9F\xBF\xEE\x80\x80\xEF\xBF\xBF",
            b"\xE0\xA0\x80\xED\x9F\xBF\xEE\x80\x80\xEF\xBF\xBF",
        ),
        Sample(
            b"\xF0\x90\x80\x80\xF3\xBF\xBF\xBF\xF4\x8F\xBF\xBF",
            b"\xF0\x90\x80\x80\xF3\xBF\xBF\xBF\xF4\x8F\xBF\xBF",
        ),
    ];
    check_all(&rt, &samples);
}

// Cut at the end, or before a byte that does not go on.
#[test]
fn cut_sequences(rt: HostRuntime) {
    let samples = [
        Sample(b"a\xC3", b"a\xEF\xBF\xBD"),
        Sample(b"a\xE2\x82", b"a\xEF\xBF\xBD"),
        Sample(b"a\xF0\x9F\x98", b"a\xEF\xBF\xBD"),
        Sample(b"a\xF0", b"a\xEF\xBF\xBD"),
        Sample(b"\xC3b", b"\xEF\xBF\xBDb"),
        Sample(b"\xE2\x82b", b"\xEF\xBF\xBDb"),
        Sample(b"\xF0\x9F\x98b", b"\xEF\xBF\xBDb"),
        Sample(b"\xF0\x9Fb", b"\xEF\xBF\xBDb"),
        Sample(b"\xF0\x9F\x98\xC3\xA9", b"\xEF\xBF\xBD\xC3\xA9"),
    ];
    check_all(&rt, &samples);
}

// What could be said with fewer bytes.
#[test]
fn overlong_sequences(rt: HostRuntime) {
    let samples = [
        Sample(b"\xC0\x80", b"\xEF\xBF\xBD\xEF\xBF\xBD"),
        Sample(b"\xC1\xBF", b"\xEF\xBF\xBD\xEF\xBF\xBD"),
        Sample(b"\xE0\x80\x80", b"\xEF\xBF\xBD\xEF\xBF\xBD\xEF\xBF\xBD"),
        Sample(b"\xE0\x9F\xBF", b"\xEF\xBF\xBD\xEF\xBF\xBD\xEF\xBF\xBD"),
        Sample(
            b"\xF0\x80\x80\x80",
            b"\xEF\xBF\xBD\xEF\xBF\xBD\xEF\xBF\xBD\xEF\xBF\xBD",
        ),
        Sample(
            b"\xF0\x8F\xBF\xBF",
            b"\xEF\xBF\xBD\xEF\xBF\xBD\xEF\xBF\xBD\xEF\xBF\xBD",
        ),
    ];
    check_all(&rt, &samples);
}

// Surrogates, what lies past U+10FFFF, and bytes that stand in no sequence.
#[test]
fn no_scalar_values(rt: HostRuntime) {
    let samples = [
        Sample(b"\xED\xA0\x80", b"\xEF\xBF\xBD\xEF\xBF\xBD\xEF\xBF\xBD"),
        Sample(b"\xED\xBF\xBF", b"\xEF\xBF\xBD\xEF\xBF\xBD\xEF\xBF\xBD"),
        Sample(
            b"\xF4\x90\x80\x80",
            b"\xEF\xBF\xBD\xEF\xBF\xBD\xEF\xBF\xBD\xEF\xBF\xBD",
        ),
        Sample(
            b"\xF5\x80\x80\x80",
            b"\xEF\xBF\xBD\xEF\xBF\xBD\xEF\xBF\xBD\xEF\xBF\xBD",
        ),
        Sample(b"\xFE", b"\xEF\xBF\xBD"),
        Sample(b"\xFF\xFF", b"\xEF\xBF\xBD\xEF\xBF\xBD"),
        Sample(b"\x80", b"\xEF\xBF\xBD"),
        Sample(b"a\xBFb", b"a\xEF\xBF\xBDb"),
        Sample(b"\xC3\xA9\xA9", b"\xC3\xA9\xEF\xBF\xBD"),
    ];
    check_all(&rt, &samples);
}

#[test]
fn mixed(rt: HostRuntime) {
    let samples = [
        Sample(
            b"\xE2\x82\xAC\xE2\x82A\xF0\x9F\xF0\x9F\x98\x80\x80",
            b"\xE2\x82\xAC\xEF\xBF\xBDA\xEF\xBF\xBD\xF0\x9F\x98\x80\xEF\xBF\xBD",
        ),
        Sample(
            b"dir \xE9t\xE9/\xC3\xA9t\xC3\xA9",
            b"dir \xEF\xBF\xBDt\xEF\xBF\xBD/\xC3\xA9t\xC3\xA9",
        ),
    ];
    check_all(&rt, &samples);
}

#[test]
fn nothing(rt: HostRuntime) {
    let mut area = [b'.'; 2];
    assert!(rt; Utf8Encoding.decode(b"", &mut area) == Some(0));
    assert!(rt; Utf8Encoding.encode(b"", &mut area) == Some(0));
    assert!(rt; area == *b"..");
}

// Text goes as it is, if it fits and is UTF-8.
#[test]
fn encoded(rt: HostRuntime) {
    let mut area = [b'.'; 4];
    assert!(rt; Utf8Encoding.encode(b"\xC3\xA9t\xC3", &mut area).is_none());
    assert!(rt;
        Utf8Encoding
            .encode(b"\xC3\xA9t\xC3\xA9", &mut area)
            .is_none()
    );
    assert!(rt; area == *b"....");
    assert!(rt; Utf8Encoding.encode(b"\xC3\xA9t", &mut area) == Some(3));
    assert!(rt; area == *b"\xC3\xA9t.");
}
