//! Schedules with listed keys, and their texts, by hand and from an independent model.

// a key that the rack lists: its write goes to a picked server, and its read to a holder
pub(crate) const LISTED_IN: &[u8] = b"\
    rack servers=3 clients=2 switches=2 listed=4 hot=4 first=1 +k\n\
    write 0 k =x\n\
    deliver 0 0\n\
    deliver 1\n\
    deliver 2\n\
    deliver 3\n\
    read 1 k\n\
    deliver 4 5\n\
    deliver 5\n\
    deliver 6\n\
    deliver 7\n\
    end\n";

pub(crate) const LISTED_OUT: &[u8] = b"\
    1 rack\n\
    2 write 0 seq 1 sends 0\n\
    3 switch 0 forwards write k version 1 to server 0 sends 1\n\
    4 server 0 applies k version 1 sends 2\n\
    5 switch 0 answers client 0 seq 1 version 1 raised sends 3\n\
    6 client 0 answered 1 version 1\n\
    7 read 1 seq 1 sends 4\n\
    8 switch 0 forwards read k to server 0 sends 5\n\
    9 server 0 reads k version 1 sends 6\n\
    10 switch 0 answers client 1 seq 1 version 1 kept sends 7\n\
    11 client 1 answered 1 version 1 =x\n\
    12 end\n\
    history 2\n\
    op 0 client 0 write k =x issued 2 answered 6\n\
    op 1 client 1 read k issued 7 answered 11 =x\n\
    order k 2\n\
    at 0\n\
    at 1\n\
    done\n";

// a copy of a listed key, which a read then finds
pub(crate) const COPIED_IN: &[u8] = b"\
    rack servers=3 clients=2 switches=2 listed=4 hot=4 first=1 +k\n\
    write 0 k =x\n\
    deliver 0 0\n\
    deliver 1\n\
    deliver 2\n\
    deliver 3\n\
    copy k 1\n\
    deliver 4\n\
    deliver 5\n\
    deliver 7\n\
    deliver 8\n\
    deliver 6\n\
    read 0 k\n\
    deliver 9 0\n\
    deliver 9 1\n\
    deliver 11\n\
    deliver 12\n\
    deliver 13\n\
    end\n";

pub(crate) const COPIED_OUT: &[u8] = b"\
    1 rack\n\
    2 write 0 seq 1 sends 0\n\
    3 switch 0 forwards write k version 1 to server 0 sends 1\n\
    4 server 0 applies k version 1 sends 2\n\
    5 switch 0 answers client 0 seq 1 version 1 raised sends 3\n\
    6 client 0 answered 1 version 1\n\
    7 controller orders 1 copy k to server 1 sends 4\n\
    8 switch 0 applies 1 ordered 0 sends 5..6\n\
    9 server 0 copies k version 1 to server 1 sends 7\n\
    10 server 1 applies k version 1 sends 8\n\
    11 switch 0 notes server 1 version 1 added\n\
    12 controller takes 1 ordered 0\n\
    13 read 0 seq 2 sends 9\n\
    14 switch 0 forwards read k to server 0 sends 10\n\
    15 switch 0 forwards read k to server 1 sends 11\n\
    16 server 1 reads k version 1 sends 12\n\
    17 switch 0 answers client 0 seq 2 version 1 kept sends 13\n\
    18 client 0 answered 2 version 1 =x\n\
    19 end\n\
    history 2\n\
    op 0 client 0 write k =x issued 2 answered 6\n\
    op 1 client 0 read k issued 13 answered 18 =x\n\
    order k 2\n\
    at 0\n\
    at 1\n\
    done\n";

// a reply to an earlier operation, which its client ignores
pub(crate) const OLD_REPLY_IN: &[u8] = b"\
    rack servers=3 clients=2 switches=2 listed=4 hot=4 first=1 +k\n\
    write 0 k =x\n\
    deliver 0 0\n\
    deliver 1\n\
    deliver 2\n\
    deliver 3\n\
    write 0 k =y\n\
    deliver 4 1\n\
    deliver 5\n\
    deliver 6\n\
    deliver 2\n\
    deliver 8\n\
    read 1 k\n\
    deliver 9 7\n\
    deliver 7\n\
    end\n";

pub(crate) const OLD_REPLY_OUT: &[u8] = b"\
    1 rack\n\
    2 write 0 seq 1 sends 0\n\
    3 switch 0 forwards write k version 1 to server 0 sends 1\n\
    4 server 0 applies k version 1 sends 2\n\
    5 switch 0 answers client 0 seq 1 version 1 raised sends 3\n\
    6 client 0 answered 1 version 1\n\
    7 write 0 seq 2 sends 4\n\
    8 switch 0 forwards write k version 2 to server 1 sends 5\n\
    9 server 1 applies k version 2 sends 6\n\
    10 switch 0 answers client 0 seq 2 version 2 raised sends 7\n\
    11 switch 0 answers client 0 seq 1 version 1 kept sends 8\n\
    12 client 0 ignores\n\
    13 read 1 seq 1 sends 9\n\
    14 switch 0 forwards read k to server 1 sends 10\n\
    15 client 0 answered 2 version 2\n\
    16 end\n\
    history 3\n\
    op 0 client 0 write k =x issued 2 answered 6\n\
    op 1 client 0 write k =y issued 7 answered 15\n\
    op 2 client 1 read k issued 13 open\n\
    order k 2\n\
    at 0\n\
    at 1\n\
    done\n";

// a write that was stamped before its key is listed, and sent again behind it
pub(crate) const STAMPED_BEFORE_IN: &[u8] = b"\
    rack servers=3 clients=2 switches=2 listed=4 hot=4 first=1\n\
    write 0 k =x\n\
    deliver 0\n\
    promote k\n\
    deliver 2\n\
    deliver 3\n\
    resend 0\n\
    deliver 4 0\n\
    deliver 5\n\
    deliver 6\n\
    deliver 7\n\
    read 1 k\n\
    deliver 8\n\
    deliver 9\n\
    deliver 10\n\
    deliver 11\n\
    end\n";

pub(crate) const STAMPED_BEFORE_OUT: &[u8] = b"\
    1 rack\n\
    2 write 0 seq 1 sends 0\n\
    3 switch 0 forwards write k version 1 to server 2 sends 1\n\
    4 controller orders 1 promote k sends 2\n\
    5 switch 0 applies 1 listed 1 sends 3\n\
    6 controller takes 1 listed 1\n\
    7 resend 0 seq 1 sends 4\n\
    8 switch 0 forwards write k version 1 to server 2 sends 5\n\
    9 server 2 applies k version 1 sends 6\n\
    10 switch 0 answers client 0 seq 1 version 1 kept sends 7\n\
    11 client 0 answered 1 version 1\n\
    12 read 1 seq 1 sends 8\n\
    13 switch 0 forwards read k to server 2 sends 9\n\
    14 server 2 reads k version 1 sends 10\n\
    15 switch 0 answers client 1 seq 1 version 1 kept sends 11\n\
    16 client 1 answered 1 version 1 =x\n\
    17 end\n\
    history 2\n\
    op 0 client 0 write k =x issued 2 answered 11\n\
    op 1 client 1 read k issued 12 answered 16 =x\n\
    order k 2\n\
    at 0\n\
    at 1\n\
    done\n";

// a demotion, which the next write ends
pub(crate) const DEMOTED_IN: &[u8] = b"\
    rack servers=3 clients=2 switches=2 listed=4 hot=4 first=1 +k\n\
    demote k\n\
    deliver 0\n\
    deliver 1\n\
    read 0 k\n\
    deliver 2\n\
    deliver 3\n\
    deliver 4\n\
    deliver 5\n\
    write 1 k =x\n\
    deliver 6 0\n\
    deliver 7\n\
    deliver 8\n\
    deliver 9\n\
    end\n";

pub(crate) const DEMOTED_OUT: &[u8] = b"\
    1 rack\n\
    2 controller orders 1 demote k sends 0\n\
    3 switch 0 applies 1 marked 1 sends 1\n\
    4 controller takes 1 marked 1\n\
    5 read 0 seq 1 sends 2\n\
    6 switch 0 forwards read k to server 2 sends 3\n\
    7 server 2 reads k version 0 sends 4\n\
    8 switch 0 answers client 0 seq 1 version 0 kept sends 5\n\
    9 client 0 answered 1 version 0 -\n\
    10 write 1 seq 1 sends 6\n\
    11 switch 0 forwards write k version 1 to server 2 sends 7\n\
    12 server 2 applies k version 1 sends 8\n\
    13 switch 0 answers client 1 seq 1 version 1 removed 0 sends 9\n\
    14 client 1 answered 1 version 1\n\
    15 end\n\
    history 2\n\
    op 0 client 0 read k issued 5 answered 9 -\n\
    op 1 client 1 write k =x issued 10 answered 14\n\
    order k 2\n\
    at 0\n\
    at 1\n\
    done\n";

// a read that is in flight across a demotion
pub(crate) const READ_ACROSS_IN: &[u8] = b"\
    rack servers=3 clients=2 switches=2 listed=4 hot=4 first=1 +k\n\
    write 0 k =x\n\
    deliver 0 0\n\
    deliver 1\n\
    deliver 2\n\
    deliver 3\n\
    read 1 k\n\
    deliver 4\n\
    demote k\n\
    deliver 6\n\
    write 0 k =y\n\
    deliver 8\n\
    deliver 9\n\
    deliver 10\n\
    deliver 11\n\
    deliver 5\n\
    deliver 12\n\
    deliver 13\n\
    end\n";

pub(crate) const READ_ACROSS_OUT: &[u8] = b"\
    1 rack\n\
    2 write 0 seq 1 sends 0\n\
    3 switch 0 forwards write k version 1 to server 0 sends 1\n\
    4 server 0 applies k version 1 sends 2\n\
    5 switch 0 answers client 0 seq 1 version 1 raised sends 3\n\
    6 client 0 answered 1 version 1\n\
    7 read 1 seq 1 sends 4\n\
    8 switch 0 forwards read k to server 0 sends 5\n\
    9 controller orders 1 demote k sends 6\n\
    10 switch 0 applies 1 marked 2 sends 7\n\
    11 write 0 seq 2 sends 8\n\
    12 switch 0 forwards write k version 2 to server 2 sends 9\n\
    13 server 2 applies k version 2 sends 10\n\
    14 switch 0 answers client 0 seq 2 version 2 removed 0 sends 11\n\
    15 client 0 answered 2 version 2\n\
    16 server 0 reads k version 1 sends 12\n\
    17 switch 0 answers client 1 seq 1 version 1 unlisted sends 13\n\
    18 client 1 answered 1 version 1 =x\n\
    19 end\n\
    history 3\n\
    op 0 client 0 write k =x issued 2 answered 6\n\
    op 1 client 1 read k issued 7 answered 18 =x\n\
    op 2 client 0 write k =y issued 11 answered 15\n\
    order k 3\n\
    at 0\n\
    at 1\n\
    at 2\n\
    done\n";
