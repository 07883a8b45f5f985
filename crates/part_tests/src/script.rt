//! Scripts of key presses (the crate `key_script`).
use key_script::{ClerkKey, Event, Key, LineError, Script};
use std::process::Abort;

/// A short text, read.
fn read(rt: &(impl Abort + AllocGlobal), text: &[u8]) -> Result<Script, LineError> {
    assert!(rt; text.len() < 1000);
    let bytes = Vec::from_slice(rt.alloc(), text).expect(rt, "memory");
    assert!(rt; bytes.len() < 1000);
    Script::read(bytes)
}

#[test]
fn the_events_come_in_order(rt: HostRuntime) {
    let text =
        b"M ABRE 20261004080000\nM TITULO 000000000042\nM LIBERA\nE 12BRC\nM CANCELA\nM SUSPENDE\nM ENCERRA 20261004170000";
    let script = read(&rt, text).expect(&rt, "a script");
    let want = [
        Event::Clerk(ClerkKey::Abre(20_261_004_080_000)),
        Event::Clerk(ClerkKey::Titulo(42)),
        Event::Clerk(ClerkKey::Libera),
        Event::Voter(Key::Digit(1)),
        Event::Voter(Key::Digit(2)),
        Event::Voter(Key::Blank),
        Event::Voter(Key::Correct),
        Event::Voter(Key::Confirm),
        Event::Clerk(ClerkKey::Cancela),
        Event::Clerk(ClerkKey::Suspende),
        Event::Clerk(ClerkKey::Encerra(20_261_004_170_000)),
    ];
    let mut place = 0;
    for event in script.events() {
        assert!(rt; place < 11);
        assert!(rt; event == want[place]);
        place += 1;
    }
    assert!(rt; place == 11);
}
