//! Schedules with commands of the controller, and their texts, by hand and from an independent
//! model.

// commands that come again and too late
pub(crate) const COMMANDS_REPEATED_IN: &[u8] = b"\
    rack servers=3 clients=2 switches=2 listed=4 hot=4 first=1\n\
    promote k\n\
    deliver 0\n\
    deliver 1\n\
    deliver 0\n\
    demote k\n\
    deliver 3\n\
    deliver 0\n\
    deliver 2\n\
    promote k\n\
    deliver 4\n\
    end\n";

pub(crate) const COMMANDS_REPEATED_OUT: &[u8] = b"\
    1 rack\n\
    2 controller orders 1 promote k sends 0\n\
    3 switch 0 applies 1 listed 1 sends 1\n\
    4 controller takes 1 listed 1\n\
    5 switch 0 repeats 1 sends 2\n\
    6 controller orders 2 demote k sends 3\n\
    7 switch 0 applies 2 marked 2 sends 4\n\
    8 switch 0 skips 1 at 2\n\
    9 controller ignores\n\
    10 controller busy 2\n\
    11 controller takes 2 marked 2\n\
    12 end\n\
    history 0\n\
    done\n";

// a promotion into a full directory
pub(crate) const DIRECTORY_FULL_IN: &[u8] = b"\
    rack servers=3 clients=2 switches=2 listed=1 hot=4 first=1 +k\n\
    promote a\n\
    deliver 0\n\
    end\n";

pub(crate) const DIRECTORY_FULL_OUT: &[u8] = b"\
    1 rack\n\
    2 controller orders 1 promote a sends 0\n\
    3 switch 0 applies 1 full 1 sends 1\n\
    4 end\n\
    history 0\n\
    done\n";

// retries with and without an open command
pub(crate) const RETRIED_IN: &[u8] = b"\
    rack servers=3 clients=1 switches=2 listed=1 hot=1 first=1\n\
    retry\n\
    deliver 0\n\
    promote k\n\
    retry\n\
    deliver 2\n\
    deliver 1\n\
    deliver 3\n\
    deliver 4\n\
    demote a\n\
    deliver 5\n\
    promote k\n\
    deliver 6\n\
    promote k\n\
    deliver 7\n\
    deliver 8\n\
    end\n";

pub(crate) const RETRIED_OUT: &[u8] = b"\
    1 rack\n\
    2 controller announces epoch 1 sends 0\n\
    3 client 0 ignores\n\
    4 controller orders 1 promote k sends 1\n\
    5 controller retries 1 sends 2\n\
    6 switch 0 applies 1 listed 1 sends 3\n\
    7 switch 0 repeats 1 sends 4\n\
    8 controller takes 1 listed 1\n\
    9 controller ignores\n\
    10 controller orders 2 demote a sends 5\n\
    11 switch 0 applies 2 not listed sends 6\n\
    12 controller busy 2\n\
    13 controller takes 2 not listed\n\
    14 controller orders 3 promote k sends 7\n\
    15 switch 0 applies 3 already 1 sends 8\n\
    16 controller takes 3 already 1\n\
    17 end\n\
    history 0\n\
    done\n";

// copies that are not ordered or find nothing
pub(crate) const NOT_COPIED_IN: &[u8] = b"\
    rack servers=3 clients=2 switches=2 listed=4 hot=4 first=1 +k\n\
    copy k 2\n\
    deliver 0\n\
    deliver 1\n\
    copy k 0\n\
    deliver 2\n\
    deliver 3\n\
    deliver 4\n\
    copy a 0\n\
    deliver 5\n\
    copy k 3\n\
    deliver 6\n\
    copy k 3\n\
    end\n";

pub(crate) const NOT_COPIED_OUT: &[u8] = b"\
    1 rack\n\
    2 controller orders 1 copy k to server 2 sends 0\n\
    3 switch 0 applies 1 holds sends 1\n\
    4 controller takes 1 holds\n\
    5 controller orders 2 copy k to server 0 sends 2\n\
    6 switch 0 applies 2 ordered 2 sends 3..4\n\
    7 server 2 has no k\n\
    8 controller takes 2 ordered 2\n\
    9 controller orders 3 copy a to server 0 sends 5\n\
    10 switch 0 applies 3 not listed sends 6\n\
    11 controller busy 3\n\
    12 controller takes 3 not listed\n\
    13 controller no such 3\n\
    14 end\n\
    history 0\n\
    done\n";

// a write that a fence voids, and its resend
pub(crate) const FENCED_IN: &[u8] = b"\
    rack servers=3 clients=2 switches=2 listed=4 hot=4 first=1\n\
    write 0 k =x\n\
    deliver 0\n\
    promote k\n\
    deliver 2\n\
    deliver 3\n\
    fence k\n\
    deliver 4\n\
    deliver 5\n\
    deliver 7\n\
    deliver 1\n\
    deliver 8\n\
    resend 0\n\
    deliver 9 0\n\
    deliver 10\n\
    deliver 11\n\
    deliver 12\n\
    deliver 8\n\
    end\n";

pub(crate) const FENCED_OUT: &[u8] = b"\
    1 rack\n\
    2 write 0 seq 1 sends 0\n\
    3 switch 0 forwards write k version 1 to server 2 sends 1\n\
    4 controller orders 1 promote k sends 2\n\
    5 switch 0 applies 1 listed 1 sends 3\n\
    6 controller takes 1 listed 1\n\
    7 controller orders 2 fence k sends 4\n\
    8 switch 0 applies 2 fenced 2 sends 5..6\n\
    9 server 2 fences k version 2 from 0 sends 7\n\
    10 switch 0 notes server 2 version 2 kept\n\
    11 server 2 voids k version 1 under 2 sends 8\n\
    12 switch 0 voids client 0 seq 1 version 1\n\
    13 resend 0 seq 1 sends 9\n\
    14 switch 0 forwards write k version 3 to server 0 sends 10\n\
    15 server 0 applies k version 3 sends 11\n\
    16 switch 0 answers client 0 seq 1 version 3 raised sends 12\n\
    17 client 0 answered 1 version 3\n\
    18 switch 0 skips void of client 0 seq 1\n\
    19 end\n\
    history 1\n\
    op 0 client 0 write k =x issued 2 answered 17\n\
    order k 1\n\
    at 0\n\
    done\n";

// a write that was given up, and is copied behind a fence
pub(crate) const FENCED_AND_COPIED_IN: &[u8] = b"\
    rack servers=3 clients=2 switches=2 listed=4 hot=4 first=1\n\
    write 0 k =x\n\
    deliver 0\n\
    deliver 1\n\
    giveup 0\n\
    promote k\n\
    deliver 3\n\
    deliver 4\n\
    fence k\n\
    deliver 5\n\
    deliver 6\n\
    deliver 8\n\
    deliver 7\n\
    copy k 0\n\
    deliver 9\n\
    deliver 10\n\
    deliver 12\n\
    deliver 13\n\
    read 1 k\n\
    deliver 14 0\n\
    deliver 15\n\
    deliver 16\n\
    deliver 17\n\
    end\n";

pub(crate) const FENCED_AND_COPIED_OUT: &[u8] = b"\
    1 rack\n\
    2 write 0 seq 1 sends 0\n\
    3 switch 0 forwards write k version 1 to server 2 sends 1\n\
    4 server 2 applies k version 1 sends 2\n\
    5 giveup 0 seq 1\n\
    6 controller orders 1 promote k sends 3\n\
    7 switch 0 applies 1 listed 1 sends 4\n\
    8 controller takes 1 listed 1\n\
    9 controller orders 2 fence k sends 5\n\
    10 switch 0 applies 2 fenced 2 sends 6..7\n\
    11 server 2 fences k version 2 from 1 sends 8\n\
    12 switch 0 notes server 2 version 2 kept\n\
    13 controller takes 2 fenced 2\n\
    14 controller orders 3 copy k to server 0 sends 9\n\
    15 switch 0 applies 3 ordered 2 sends 10..11\n\
    16 server 2 copies k version 2 to server 0 sends 12\n\
    17 server 0 applies k version 2 sends 13\n\
    18 switch 0 notes server 0 version 2 added\n\
    19 read 1 seq 1 sends 14\n\
    20 switch 0 forwards read k to server 0 sends 15\n\
    21 server 0 reads k version 2 sends 16\n\
    22 switch 0 answers client 1 seq 1 version 2 kept sends 17\n\
    23 client 1 answered 1 version 2 =x\n\
    24 end\n\
    history 2\n\
    op 0 client 0 write k =x issued 2 open\n\
    op 1 client 1 read k issued 19 answered 23 =x\n\
    order k 2\n\
    at 0\n\
    at 1\n\
    done\n";
