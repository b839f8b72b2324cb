//! Schedules that are refused.

// a key of 33 bytes
pub(crate) const TOO_LONG_KEY_IN: &[u8] = b"\
    rack servers=3 clients=2 switches=2 listed=4 hot=4 first=1\n\
    read 0 kkkkkkkkkkkkkkkkkkkkkkkkkkkkkkkkk\n\
    end\n";

// the line end is missing
pub(crate) const NO_END_IN: &[u8] = b"\
    rack servers=3 clients=2 switches=2 listed=4 hot=4 first=1\n\
    read 0 k\n";

pub(crate) const NO_END_OUT: &[u8] = b"\
    1 rack\n\
    2 read 0 seq 1 sends 0\n";

// no delete in format 1
pub(crate) const DELETE_IN_FORMAT_1_IN: &[u8] = b"\
    rack servers=3 clients=2 switches=2 listed=4 hot=4 first=1\n\
    delete 0 k\n\
    end\n";

// a rack beyond format 1
pub(crate) const LARGE_IN_FORMAT_1_IN: &[u8] = b"\
    rack servers=64 clients=1024 switches=1 listed=1 hot=1 first=1\n\
    end\n";

// a key that is listed twice
pub(crate) const LISTED_TWICE_IN: &[u8] = b"\
    rack servers=1 clients=1 switches=1 listed=2 hot=1 first=1 +k +k\n\
    end\n";

// more keys than may be listed
pub(crate) const TOO_MANY_LISTED_IN: &[u8] = b"\
    rack servers=1 clients=1 switches=1 listed=1 hot=1 first=1 +a +k\n\
    end\n";
