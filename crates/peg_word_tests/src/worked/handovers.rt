//! Schedules with handovers, plans and junk, and their texts, by hand and from an independent model.

// a handover in two parts, of which one comes twice
pub(crate) const HANDED_OVER_IN: &[u8] = b"\
    rack servers=3 clients=40 switches=2 listed=4 hot=4 first=1\n\
    handover 1\n\
    deliver 0\n\
    deliver 2\n\
    deliver 2\n\
    read 0 k\n\
    deliver 3\n\
    deliver 1\n\
    deliver 1\n\
    deliver 4\n\
    deliver 6\n\
    resend 0\n\
    deliver 46\n\
    deliver 47\n\
    deliver 48\n\
    deliver 49\n\
    end\n";

pub(crate) const HANDED_OVER_OUT: &[u8] = b"\
    1 rack\n\
    2 controller orders 1 handover to switch 1 sends 0\n\
    3 switch 0 seals epoch 2 to switch 1 sends 1..2\n\
    4 switch 1 collects 1 of 2\n\
    5 switch 1 has part 1\n\
    6 read 0 seq 1 sends 3\n\
    7 switch 0 not active epoch 1\n\
    8 switch 1 active epoch 2 sends 4\n\
    9 switch 1 repeats 1 sends 5\n\
    10 controller takes 1 activated 2 sends 6..45\n\
    11 client 0 moves to switch 1 epoch 2\n\
    12 resend 0 seq 1 sends 46\n\
    13 switch 1 forwards read k to server 2 sends 47\n\
    14 server 2 reads k version 0 sends 48\n\
    15 switch 1 answers client 0 seq 1 version 0 unlisted sends 49\n\
    16 client 0 answered 1 version 0 -\n\
    17 end\n\
    history 1\n\
    op 0 client 0 read k issued 6 answered 16 -\n\
    order k 1\n\
    at 0\n\
    done\n";

// a handover and the one back
pub(crate) const HANDED_BACK_IN: &[u8] = b"\
    rack servers=3 clients=1 switches=2 listed=1 hot=1 first=1\n\
    handover 0\n\
    handover 2\n\
    handover 1\n\
    deliver 0\n\
    deliver 0\n\
    deliver 1\n\
    deliver 3\n\
    handover 0\n\
    deliver 5\n\
    deliver 2\n\
    deliver 6\n\
    deliver 0\n\
    end\n";

pub(crate) const HANDED_BACK_OUT: &[u8] = b"\
    1 rack\n\
    2 controller same switch 0\n\
    3 controller no such 2\n\
    4 controller orders 1 handover to switch 1 sends 0\n\
    5 switch 0 seals epoch 2 to switch 1 sends 1\n\
    6 switch 0 repeats 1 sends 2\n\
    7 switch 1 active epoch 2 sends 3\n\
    8 controller takes 1 activated 2 sends 4\n\
    9 controller orders 2 handover to switch 0 sends 5\n\
    10 switch 1 seals epoch 3 to switch 0 sends 6\n\
    11 switch 1 old part of epoch 2\n\
    12 switch 0 active epoch 3 sends 7\n\
    13 switch 0 skips 1 at 2\n\
    14 end\n\
    history 0\n\
    done\n";

// a survey, a plan from its report, and counts that are cleared
pub(crate) const PLANNED_IN: &[u8] = b"\
    rack servers=3 clients=2 switches=1 listed=4 hot=2 first=1\n\
    read 0 k\n\
    deliver 0\n\
    deliver 0\n\
    deliver 0\n\
    read 1 a\n\
    deliver 4\n\
    giveup 1\n\
    read 1 c\n\
    deliver 6\n\
    survey\n\
    deliver 8\n\
    plan 3 1\n\
    deliver 9\n\
    plan 3 1\n\
    deliver 10\n\
    deliver 11\n\
    clear\n\
    deliver 12\n\
    end\n";

pub(crate) const PLANNED_OUT: &[u8] = b"\
    1 rack\n\
    2 read 0 seq 1 sends 0\n\
    3 switch 0 forwards read k to server 2 sends 1\n\
    4 switch 0 forwards read k to server 2 sends 2\n\
    5 switch 0 forwards read k to server 2 sends 3\n\
    6 read 1 seq 1 sends 4\n\
    7 switch 0 forwards read a to server 1 sends 5\n\
    8 giveup 1 seq 1\n\
    9 read 1 seq 2 sends 6\n\
    10 switch 0 forwards read c to server 0 sends 7\n\
    11 controller surveys sends 8\n\
    12 switch 0 reports 2 rows sends 9\n\
    13 controller has no report\n\
    14 controller has report of 2 rows\n\
    15 controller plans 0 demote 1 promote sends 10\n\
    16 switch 0 applies 1 listed 1 sends 11\n\
    17 controller takes 1 listed 1\n\
    18 controller orders 2 clear sends 12\n\
    19 switch 0 applies 2 cleared sends 13\n\
    20 end\n\
    history 3\n\
    op 0 client 0 read k issued 2 open\n\
    op 1 client 1 read a issued 6 open\n\
    op 2 client 1 read c issued 9 open\n\
    order k 0\n\
    order a 0\n\
    order c 0\n\
    done\n";

// junk: too long, forged, malformed and empty
pub(crate) const JUNK_IN: &[u8] = b"\
    rack servers=3 clients=2 switches=2 listed=4 hot=4 first=1\n\
    junk switch 0 x000000000000000000000000000000000000000000000000000000000000000000000000000\
    000000000000000000000000000000000000000000000000000000000000000000000000000000000000000000\
    000000000000000000000000000000000000000000000000000000000000000000000000000000000000000000\
    000000000000000000000000000000000000000000000000000000000000000000000000000000000000000000\
    000000000000000000000000000000000000000000000000000000000000000000000000000000000000000000\
    000000000000000000000000000000000000000000000000000000000000000000000000000000000000000000\
    000000000000000000000000000000000000000000000000000000000000000000000000000000000000000000\
    000000000000000000000000000000000000000000000000000000000000000000000000000000000000000000\
    000000000000000000000000000000000000000000000000000000000000000000000000000000000000000000\
    000000000000000000000000000000000000000000000000000000000000000000000000000000000000000000\
    000000000000000000000000000000000000000000000000000000000000000000000000000000000000000000\
    000000000000000000000000000000000000000000000000000000000000000000000000000000000000000000\
    000000000000000000000000000000000000000000000000000000000000000000000000000000000000000000\
    000000000000000000000000000000000000000000000000000000000000000000000000000000000000000000\
    0000000000000000000000000000000000000\n\
    junk switch 0 x5047010e\n\
    junk switch 0 x5047010e00\n\
    junk client 0 x\n\
    end\n";

pub(crate) const JUNK_OUT: &[u8] = b"\
    1 rack\n\
    2 switch 0 malformed\n\
    3 forged\n\
    4 switch 0 malformed\n\
    5 client 0 ignores\n\
    6 end\n\
    history 0\n\
    done\n";
