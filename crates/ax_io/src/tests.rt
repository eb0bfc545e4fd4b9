use crate::{FileFault, Files, HostFiles, HostSink, Sink, SinkFault};
use std::test::Fail;
use std::{fs, io};

// A writer that takes two bytes at a time as long as it has room, and then fails or takes nothing.
#[derive(Drop)]
struct Narrow {
    bytes: Vec<u8>,
    room: usize,
    fails: bool,
}

impl io::Write for Narrow {
    fn write(&mut self, buf: &[u8]) -> io::Result<usize> {
        let count = buf.len().min(2).min(self.room);
        if count == 0 && self.fails {
            return Err(io::Error::from(io::ErrorKind::BrokenPipe));
        }
        self.bytes.extend_from_slice(&buf[..count])?;
        self.room -= count;
        Ok(count)
    }

    fn flush(&mut self) -> io::Result<()> {
        Ok(())
    }
}

#[test]
fn files_of_the_system(rt: HostRuntime) -> Result<(), Fail> {
    let alloc = rt.alloc();
    let mut content = Vec::new(alloc);
    for i in 0u32..20000 {
        content.push((i % 251) as u8)?;
    }
    let name = "ax_io_sample";
    fs::write(&rt, name, content.as_slice())?;
    let mut files = HostFiles::new(alloc, &rt);
    let whole = Ok(content.as_slice());
    let table: [(&str, usize, Result<&[u8], FileFault>); 4] = [
        (name, 20000, whole),
        (name, 19999, Err(FileFault::TooLong)),
        (name, usize::MAX, whole),
        ("no such file", 9, Err(FileFault::Failed)),
    ];
    for (name, limit, want) in table {
        let answer = files.read(alloc, name, limit);
        let answer = answer.as_ref().map(|v| v.as_slice()).map_err(|e| *e);
        assert!(rt; answer == want, "{name} within {limit}");
    }
    fs::remove_file(&rt, name)?;
    Ok(())
}

#[test]
fn sinks_of_the_system(rt: HostRuntime) -> Result<(), Fail> {
    let alloc = rt.alloc();
    let mut output = HostSink::new(io::writer(&rt));
    assert_eq!(rt; output.put(b"put\n"), Ok(()));
    for fails in [true, false] {
        let mut narrow = Narrow {
            bytes: Vec::new(alloc),
            room: 7,
            fails,
        };
        let mut sink = HostSink::new(&mut narrow);
        assert_eq!(rt; sink.put(b"abcde"), Ok(()));
        assert_eq!(rt; sink.put(b""), Ok(()));
        assert_eq!(rt; sink.put(b"fgh"), Err(SinkFault::Failed));
        assert_eq!(rt; sink.put(b""), Ok(()));
        assert_eq!(rt; narrow.bytes.as_slice(), b"abcdefg".as_slice());
    }
    Ok(())
}
