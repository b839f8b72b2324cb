use crate::Junk;

#[test]
fn junk_is_held(rt: HostRuntime) {
    let longest = [7; 1000];
    for bytes in [b"".as_slice(), b"junk".as_slice(), longest.as_slice()] {
        assert_eq!(rt; Junk::make(bytes).bytes(), bytes);
    }
}
