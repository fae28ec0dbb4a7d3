// Writers that fail, texts that break off or aren't text, and settings that are none.

use crate::programs::{SUMMED, four_locales, one_locale, written};
use dpl_run::{Config, ConfigFault, Maps, OpenGate, Plain, Refused, run_text};

// A sum and its array.
// A writer that takes three bytes of a sum and of its array, and then fails, has these.
#[test]
fn a_writer_that_fails(rt: HostRuntime) {
    let config = four_locales(&rt, Maps::AsIs);
    let mut room = [0u8; 3];
    let mut out = Plain::new(room.as_mut_slice());
    let text = SUMMED.as_bytes();
    let result = run_text(&rt, rt.alloc(), text, &[], &config, &OpenGate, &mut out);
    assert!(rt; matches!(result, Err(Refused::Writer)) && out.failed);
    assert!(rt; room == *b"204");
}

// Each beginning of a program is one, or has a refusal, and writes whole lines.
#[test]
fn beginnings(rt: HostRuntime) {
    let config = one_locale(&rt);
    let mut text = Vec::new(rt.alloc());
    for byte in SUMMED.bytes() {
        let said = written(&rt, rt.alloc(), &text, &[], &config, &OpenGate);
        let out = said.expect(&rt, "memory");
        assert!(rt; out.is_empty() || out.last() == Some(&b'\n'));
        text.push(byte).expect(&rt, "memory");
    }
}

#[test]
fn bytes_that_are_no_text(rt: HostRuntime) {
    let config = one_locale(&rt);
    let said = written(&rt, rt.alloc(), b"var s\xff", &[], &config, &OpenGate);
    let out = said.expect(&rt, "memory");
    assert!(rt; out.as_slice() == b"! L1 at 1:6\n".as_slice());
}

#[test]
fn no_settings(rt: HostRuntime) {
    assert!(rt;
        matches!(
            Config::new(65, 9, 9, [1, 1], [1, 1, 1], Maps::AsIs),
            Err(ConfigFault::Locales)
        )
    );
    assert!(rt;
        matches!(
            Config::new(4, 9, 9, [2, 2], [2, 1, 1], Maps::AsIs),
            Err(ConfigFault::Grid3)
        )
    );
}
