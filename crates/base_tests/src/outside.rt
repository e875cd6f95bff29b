//! Files and sinks, over memory and over the system.
use cbl_io::{Failed, Files, MemFiles, MemSink, ReadStop, RealFiles, RealSink, Sink, write_all};
use std::alloc::{AllocError, Global};
use std::fs;
use std::test::Fail;

// Through the bound, as the layers above read.
fn read<F: Files>(
    files: &mut F,
    alloc: Global,
    name: &str,
    most: u64,
) -> Result<Vec<u8>, ReadStop> {
    files.read(alloc, name, most)
}

// Through the bound, as the layers above write.
fn write<S: Sink>(sink: &mut S, text: &str) -> Result<(), Failed> {
    write_all(sink, text.as_bytes())
}

fn entry(alloc: Global, name: &str, text: &str) -> Result<(String, Vec<u8>), AllocError> {
    Ok((
        String::from_str(alloc, name)?,
        Vec::from_slice(alloc, text.as_bytes())?,
    ))
}

#[test]
fn memory_gives_what_it_holds(rt: HostRuntime) -> Result<(), Fail> {
    let alloc = rt.alloc();
    let entries = vec![in alloc;
        entry(alloc, "a.co", "first")?,
        entry(alloc, "b.co", "other")?,
        entry(alloc, "a.co", "second")?,
    ]?;
    let mut files = MemFiles::new(alloc, entries, Vec::from_slice(alloc, &[2])?);
    let rows = [
        ("a.co", 100, Some("first")), // of equal names the first
        ("b.co", 2, Some("oth")), // one byte more than the most
        ("b.co", 100, None), // the third read is to fail
        ("b.co", 100, Some("other")),
        ("c.co", 100, None), // not held
        ("a.co", 0, Some("f")),
    ];
    for (name, most, want) in rows {
        match read(&mut files, alloc, name, most) {
            Ok(bytes) => {
                assert_eq!(rt;
                    Some(bytes.as_slice()),
                    want.map(|text| text.as_bytes()),
                    "{name}"
                )
            }
            Err(stop) => {
                assert_eq!(rt; stop, ReadStop::Failed, "{name}");
                assert!(rt; want.is_none(), "{name}");
            }
        }
    }
    Ok(())
}

#[test]
fn memory_takes_a_front(rt: HostRuntime) -> Result<(), Fail> {
    let alloc = rt.alloc();
    let mut sink = MemSink::new(alloc, 100, 3, Vec::from_slice(alloc, &[1])?)?;
    assert_eq!(rt; write(&mut sink, "10\n26\n"), Err(Failed));
    assert_eq!(rt; sink.bytes(), "10\n".as_bytes());
    assert_eq!(rt; write(&mut sink, "26\n"), Ok(()));
    assert_eq!(rt; sink.bytes(), "10\n26\n".as_bytes());

    // room for four bytes alone, after which only an empty piece is taken
    let mut small = MemSink::new(alloc, 4, 3, Vec::new(alloc))?;
    assert_eq!(rt; write(&mut small, "10\n26\n"), Err(Failed));
    assert_eq!(rt; small.bytes(), "10\n2".as_bytes());
    assert_eq!(rt; small.write(b""), Ok(0));
    Ok(())
}

#[test]
fn the_system_gives_the_front_of_a_file(rt: HostRuntime) -> Result<(), Fail> {
    let alloc = rt.alloc();
    fs::write(&rt, "cbl_io_test.txt", "10\n26\n")?;
    let mut files = RealFiles::new(alloc, &rt);
    let rows = [
        ("cbl_io_test.txt", 100, Some("10\n26\n")),
        ("cbl_io_test.txt", 2, Some("10\n")),
        ("cbl_io_missing.txt", 100, None),
        (".", 100, None), // a folder
    ];
    for (name, most, want) in rows {
        match read(&mut files, alloc, name, most) {
            Ok(bytes) => {
                assert_eq!(rt;
                    Some(bytes.as_slice()),
                    want.map(|text| text.as_bytes()),
                    "{name}"
                )
            }
            Err(stop) => {
                assert_eq!(rt; stop, ReadStop::Failed, "{name}");
                assert!(rt; want.is_none(), "{name}");
            }
        }
    }
    fs::remove_file(&rt, "cbl_io_test.txt")?;
    Ok(())
}

#[test]
fn writers_of_the_system_get_the_bytes(rt: HostRuntime) -> Result<(), Fail> {
    let mut bytes = Vec::new(rt.alloc());
    let mut sink = RealSink::new(&mut bytes);
    assert_eq!(rt; write(&mut sink, "10\n26\n"), Ok(()));
    drop(sink);
    assert_eq!(rt; bytes.as_slice(), "10\n26\n".as_bytes());

    // a full writer takes nothing, which is a fault
    let mut three = [0u8; 3];
    let mut full = RealSink::new(three.as_mut_slice());
    assert_eq!(rt; write(&mut full, "10\n26\n"), Err(Failed));
    drop(full);
    assert_eq!(rt; three.as_slice(), "10\n".as_bytes());

    assert_eq!(rt;
        write(&mut RealSink::new(rt.stdout()), "to the output\n"),
        Ok(())
    );
    assert_eq!(rt;
        write(&mut RealSink::new(rt.stderr()), "to the errors\n"),
        Ok(())
    );
    Ok(())
}
