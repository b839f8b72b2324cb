//! Schedules of clients and deliveries, and their texts, by hand and from an independent model.

// a write and a read, each with all its deliveries
pub(crate) const FULL_ROUNDS_IN: &[u8] = b"\
    rack servers=1 clients=1 switches=1 listed=1 hot=1 first=1\n\
    write 0 k =x\n\
    deliver 0\n\
    deliver 1\n\
    deliver 2\n\
    deliver 3\n\
    read 0 k\n\
    deliver 4\n\
    deliver 5\n\
    deliver 6\n\
    deliver 7\n\
    end\n";

pub(crate) const FULL_ROUNDS_OUT: &[u8] = b"\
    1 rack\n\
    2 write 0 seq 1 sends 0\n\
    3 switch 0 forwards write k version 1 to server 0 sends 1\n\
    4 server 0 applies k version 1 sends 2\n\
    5 switch 0 answers client 0 seq 1 version 1 unlisted sends 3\n\
    6 client 0 answered 1 version 1\n\
    7 read 0 seq 2 sends 4\n\
    8 switch 0 forwards read k to server 0 sends 5\n\
    9 server 0 reads k version 1 sends 6\n\
    10 switch 0 answers client 0 seq 2 version 1 unlisted sends 7\n\
    11 client 0 answered 2 version 1 =x\n\
    12 end\n\
    history 2\n\
    op 0 client 0 write k =x issued 2 answered 6\n\
    op 1 client 0 read k issued 7 answered 11 =x\n\
    order k 2\n\
    at 0\n\
    at 1\n\
    done\n";

// no event
pub(crate) const NOTHING_IN: &[u8] = b"\
    rack servers=1 clients=1 switches=1 listed=1 hot=1 first=1\n\
    end\n";

pub(crate) const NOTHING_OUT: &[u8] = b"\
    1 rack\n\
    2 end\n\
    history 0\n\
    done\n";

// a read of a key that was never written
pub(crate) const ONE_READ_IN: &[u8] = b"\
    rack servers=3 clients=2 switches=2 listed=4 hot=4 first=1\n\
    read 0 k\n\
    deliver 0\n\
    deliver 1\n\
    deliver 2\n\
    deliver 3\n\
    end\n";

pub(crate) const ONE_READ_OUT: &[u8] = b"\
    1 rack\n\
    2 read 0 seq 1 sends 0\n\
    3 switch 0 forwards read k to server 2 sends 1\n\
    4 server 2 reads k version 0 sends 2\n\
    5 switch 0 answers client 0 seq 1 version 0 unlisted sends 3\n\
    6 client 0 answered 1 version 0 -\n\
    7 end\n\
    history 1\n\
    op 0 client 0 read k issued 2 answered 6 -\n\
    order k 1\n\
    at 0\n\
    done\n";

// a write whose request is delivered three times
pub(crate) const TWO_SENDS_IN: &[u8] = b"\
    rack servers=3 clients=2 switches=2 listed=4 hot=4 first=1\n\
    write 0 k =x\n\
    deliver 0\n\
    deliver 0\n\
    deliver 0\n\
    deliver 1\n\
    deliver 2\n\
    deliver 4\n\
    deliver 6\n\
    end\n";

pub(crate) const TWO_SENDS_OUT: &[u8] = b"\
    1 rack\n\
    2 write 0 seq 1 sends 0\n\
    3 switch 0 forwards write k version 1 to server 2 sends 1\n\
    4 switch 0 forwards write k version 1 to server 2 sends 2\n\
    5 switch 0 forwards write k version 1 to server 2 sends 3\n\
    6 server 2 applies k version 1 sends 4\n\
    7 server 2 keeps k version 1 sends 5\n\
    8 switch 0 answers client 0 seq 1 version 1 unlisted sends 6\n\
    9 client 0 answered 1 version 1\n\
    10 end\n\
    history 1\n\
    op 0 client 0 write k =x issued 2 answered 9\n\
    order k 1\n\
    at 0\n\
    done\n";

// two writes of a key
pub(crate) const TWO_WRITES_IN: &[u8] = b"\
    rack servers=3 clients=2 switches=2 listed=4 hot=4 first=1\n\
    write 0 k =x\n\
    write 1 k =y\n\
    deliver 0\n\
    deliver 1\n\
    deliver 3\n\
    deliver 2\n\
    deliver 4\n\
    deliver 5\n\
    deliver 6\n\
    deliver 7\n\
    end\n";

pub(crate) const TWO_WRITES_OUT: &[u8] = b"\
    1 rack\n\
    2 write 0 seq 1 sends 0\n\
    3 write 1 seq 1 sends 1\n\
    4 switch 0 forwards write k version 1 to server 2 sends 2\n\
    5 switch 0 forwards write k version 2 to server 2 sends 3\n\
    6 server 2 applies k version 2 sends 4\n\
    7 server 2 keeps k version 2 sends 5\n\
    8 switch 0 answers client 1 seq 1 version 2 unlisted sends 6\n\
    9 switch 0 answers client 0 seq 1 version 1 unlisted sends 7\n\
    10 client 1 answered 1 version 2\n\
    11 client 0 answered 1 version 1\n\
    12 end\n\
    history 2\n\
    op 0 client 0 write k =x issued 2 answered 11\n\
    op 1 client 1 write k =y issued 3 answered 10\n\
    order k 2\n\
    at 0\n\
    at 1\n\
    done\n";

// a write that takes effect after its client gave it up
pub(crate) const LATE_IN: &[u8] = b"\
    rack servers=3 clients=2 switches=2 listed=4 hot=4 first=1\n\
    write 0 k =x\n\
    deliver 0\n\
    giveup 0\n\
    read 0 k\n\
    deliver 2\n\
    deliver 3\n\
    deliver 4\n\
    deliver 5\n\
    deliver 1\n\
    deliver 6\n\
    deliver 7\n\
    end\n";

pub(crate) const LATE_OUT: &[u8] = b"\
    1 rack\n\
    2 write 0 seq 1 sends 0\n\
    3 switch 0 forwards write k version 1 to server 2 sends 1\n\
    4 giveup 0 seq 1\n\
    5 read 0 seq 2 sends 2\n\
    6 switch 0 forwards read k to server 2 sends 3\n\
    7 server 2 reads k version 0 sends 4\n\
    8 switch 0 answers client 0 seq 2 version 0 unlisted sends 5\n\
    9 client 0 answered 2 version 0 -\n\
    10 server 2 applies k version 1 sends 6\n\
    11 switch 0 answers client 0 seq 1 version 1 unlisted sends 7\n\
    12 client 0 ignores\n\
    13 end\n\
    history 2\n\
    op 0 client 0 write k =x issued 2 open\n\
    op 1 client 0 read k issued 5 answered 9 -\n\
    order k 1\n\
    at 1\n\
    done\n";

// the same, and a read that sees it
pub(crate) const SEEN_LATE_IN: &[u8] = b"\
    rack servers=3 clients=2 switches=2 listed=4 hot=4 first=1\n\
    write 0 k =x\n\
    deliver 0\n\
    giveup 0\n\
    read 0 k\n\
    deliver 2\n\
    deliver 3\n\
    deliver 4\n\
    deliver 5\n\
    deliver 1\n\
    deliver 6\n\
    deliver 7\n\
    read 1 k\n\
    deliver 8\n\
    deliver 9\n\
    deliver 10\n\
    deliver 11\n\
    end\n";

pub(crate) const SEEN_LATE_OUT: &[u8] = b"\
    1 rack\n\
    2 write 0 seq 1 sends 0\n\
    3 switch 0 forwards write k version 1 to server 2 sends 1\n\
    4 giveup 0 seq 1\n\
    5 read 0 seq 2 sends 2\n\
    6 switch 0 forwards read k to server 2 sends 3\n\
    7 server 2 reads k version 0 sends 4\n\
    8 switch 0 answers client 0 seq 2 version 0 unlisted sends 5\n\
    9 client 0 answered 2 version 0 -\n\
    10 server 2 applies k version 1 sends 6\n\
    11 switch 0 answers client 0 seq 1 version 1 unlisted sends 7\n\
    12 client 0 ignores\n\
    13 read 1 seq 1 sends 8\n\
    14 switch 0 forwards read k to server 2 sends 9\n\
    15 server 2 reads k version 1 sends 10\n\
    16 switch 0 answers client 1 seq 1 version 1 unlisted sends 11\n\
    17 client 1 answered 1 version 1 =x\n\
    18 end\n\
    history 3\n\
    op 0 client 0 write k =x issued 2 open\n\
    op 1 client 0 read k issued 5 answered 9 -\n\
    op 2 client 1 read k issued 13 answered 17 =x\n\
    order k 3\n\
    at 1\n\
    at 0\n\
    at 2\n\
    done\n";

// the last version is not given
pub(crate) const EXHAUSTED_IN: &[u8] = b"\
    rack servers=3 clients=2 switches=2 listed=4 hot=4 first=18446744073709551615\n\
    write 0 k =x\n\
    deliver 0\n\
    read 1 k\n\
    deliver 1\n\
    end\n";

pub(crate) const EXHAUSTED_OUT: &[u8] = b"\
    1 rack\n\
    2 write 0 seq 1 sends 0\n\
    3 switch 0 exhausted 18446744073709551615\n\
    4 read 1 seq 1 sends 1\n\
    5 switch 0 forwards read k to server 2 sends 2\n\
    6 end\n\
    history 2\n\
    op 0 client 0 write k =x issued 2 open\n\
    op 1 client 1 read k issued 4 open\n\
    order k 0\n\
    done\n";

// a packet that there is not
pub(crate) const NO_PACKET_IN: &[u8] = b"\
    rack servers=3 clients=2 switches=2 listed=4 hot=4 first=1\n\
    deliver 0\n\
    end\n";

pub(crate) const NO_PACKET_OUT: &[u8] = b"\
    1 rack\n\
    2 no such packet 0 of 0\n\
    3 end\n\
    history 0\n\
    done\n";

// a key of 32 bytes
pub(crate) const LONG_KEY_IN: &[u8] = b"\
    rack servers=3 clients=2 switches=2 listed=4 hot=4 first=1\n\
    read 0 kkkkkkkkkkkkkkkkkkkkkkkkkkkkkkkk\n\
    end\n";

pub(crate) const LONG_KEY_OUT: &[u8] = b"\
    1 rack\n\
    2 read 0 seq 1 sends 0\n\
    3 end\n\
    history 1\n\
    op 0 client 0 read kkkkkkkkkkkkkkkkkkkkkkkkkkkkkkkk issued 2 open\n\
    order kkkkkkkkkkkkkkkkkkkkkkkkkkkkkkkk 0\n\
    done\n";

// a client that is busy
pub(crate) const BUSY_IN: &[u8] = b"\
    rack servers=3 clients=2 switches=2 listed=4 hot=4 first=1\n\
    write 0 k =x\n\
    read 0 k\n\
    deliver 0\n\
    giveup 0\n\
    giveup 0\n\
    write 0 k =y\n\
    deliver 2\n\
    deliver 0\n\
    end\n";

pub(crate) const BUSY_OUT: &[u8] = b"\
    1 rack\n\
    2 write 0 seq 1 sends 0\n\
    3 busy 0 seq 1\n\
    4 switch 0 forwards write k version 1 to server 2 sends 1\n\
    5 giveup 0 seq 1\n\
    6 nothing open 0\n\
    7 write 0 seq 2 sends 2\n\
    8 switch 0 forwards write k version 2 to server 2 sends 3\n\
    9 switch 0 stale 2\n\
    10 end\n\
    history 2\n\
    op 0 client 0 write k =x issued 2 open\n\
    op 1 client 0 write k =y issued 7 open\n\
    order k 0\n\
    done\n";

// a delete in the largest rack of format 2
pub(crate) const LARGEST_IN: &[u8] = b"\
    rack servers=64 clients=1024 switches=1 listed=1 hot=1 first=1 format=2\n\
    write 1023 k =x\n\
    deliver 0\n\
    deliver 1\n\
    deliver 2\n\
    deliver 3\n\
    delete 1023 k\n\
    deliver 4\n\
    deliver 5\n\
    read 0 k\n\
    deliver 7\n\
    deliver 8\n\
    deliver 9\n\
    deliver 10\n\
    end\n";

pub(crate) const LARGEST_OUT: &[u8] = b"\
    1 rack\n\
    2 write 1023 seq 1 sends 0\n\
    3 switch 0 forwards write k version 1 to server 43 sends 1\n\
    4 server 43 applies k version 1 sends 2\n\
    5 switch 0 answers client 1023 seq 1 version 1 unlisted sends 3\n\
    6 client 1023 answered 1 version 1\n\
    7 delete 1023 seq 2 sends 4\n\
    8 switch 0 forwards write k version 2 to server 43 sends 5\n\
    9 server 43 applies k version 2 sends 6\n\
    10 read 0 seq 1 sends 7\n\
    11 switch 0 forwards read k to server 43 sends 8\n\
    12 server 43 reads k version 2 sends 9\n\
    13 switch 0 answers client 0 seq 1 version 2 unlisted sends 10\n\
    14 client 0 answered 1 version 2 -\n\
    15 end\n\
    history 3\n\
    op 0 client 1023 write k =x issued 2 answered 6\n\
    op 1 client 1023 write k - issued 7 open\n\
    op 2 client 0 read k issued 10 answered 14 -\n\
    order k 3\n\
    at 0\n\
    at 1\n\
    at 2\n\
    done\n";
