use super::*;

// Lines that are played, what they come to, and how it ends.
struct Row<'a> {
    input: &'a [u8],
    output: &'a [u8],
    status: Status,
}

// The key `k` goes to rack 1, and `b` to rack 0.
const ROWS: [Row<'static>; 6] = [
    Row {
        input: b"racks 2
rack servers=1 clients=1 switches=1 listed=1 hot=1 first=1
rack servers=1 clients=1 switches=1 listed=1 hot=1 first=1
write 0 k =x
write 0 b =y
rack 1 deliver 0
rack 0 giveup 0
end
",
        output: b"1 racks 2
2 rack
3 rack
4 rack 1 write 0 seq 1 sends 0
5 rack 0 write 0 seq 1 sends 0
6 rack 1 switch 0 forwards write k version 1 to server 0 sends 1
7 rack 0 giveup 0 seq 1
8 end
rack 0
history 1
op 0 client 0 write b =y issued 5 open
order b 0
done
rack 1
history 1
op 0 client 0 write k =x issued 4 open
order k 0
done
",
        status: Status::Done,
    },
    // An operation names no rack.
    Row {
        input: b"racks 2
rack servers=1 clients=1 switches=1 listed=1 hot=1 first=1
rack servers=1 clients=1 switches=1 listed=1 hot=1 first=1
write 0 k =x
write 0 b =y
rack 1 read 0 k
",
        output: b"1 racks 2
2 rack
3 rack
4 rack 1 write 0 seq 1 sends 0
5 rack 0 write 0 seq 1 sends 0
",
        status: Status::BadInput { line: 6 },
    },
    Row {
        input: b"racks 9\n",
        output: b"",
        status: Status::BadInput { line: 1 },
    },
    // Ranges are those of the rack that takes a line: no delete in format 1.
    Row {
        input: b"racks 2
rack servers=1 clients=1 switches=1 listed=1 hot=1 first=1
rack servers=1 clients=2 switches=1 listed=1 hot=1 first=1 format=2
delete 1 k
delete 0 b
",
        output: b"1 racks 2
2 rack
3 rack
4 rack 1 delete 1 seq 1 sends 0
",
        status: Status::BadInput { line: 5 },
    },
    // One pending operation of a client in each rack.
    Row {
        input: b"racks 1
rack servers=1 clients=1 switches=1 listed=1 hot=1 first=1
write 0 k =x
read 0 b
end",
        output: b"1 racks 1
2 rack
3 rack 0 write 0 seq 1 sends 0
4 rack 0 busy 0 seq 1
5 end
rack 0
history 1
op 0 client 0 write k =x issued 3 open
order k 0
done
",
        status: Status::Done,
    },
    // A rack line is missing.
    Row {
        input: b"racks 2
rack servers=1 clients=1 switches=1 listed=1 hot=1 first=1
end
",
        output: b"1 racks 2
2 rack
",
        status: Status::BadInput { line: 3 },
    },
];

fn is_played(alloc: Global, row: &Row<'_>) -> Result<bool, AllocError> {
    let words = words_of(alloc, &["racks"])?;
    let mut source = source_of(alloc, row.input, 7, 0)?;
    let mut sink = sink_of(alloc, 4096, 0)?;
    let status = run(alloc, &words, &mut source, &mut sink, &mut NoWire::make());
    Ok(status == row.status && sink.tells() && sink.written() == row.output)
}

#[test]
fn keys_are_divided_among_racks(rt: HostRuntime) -> Result<(), Fail> {
    for (i, row) in ROWS.iter().enumerate() {
        assert!(rt; is_played(rt.alloc(), row)?, "row {i}");
    }
    Ok(())
}
