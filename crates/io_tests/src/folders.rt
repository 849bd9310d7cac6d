// Each call of a folder, in memory and of the system, and each end that it has.
use lk_io::{Folder, FolderEnd, Found, MemFolder, NamedBytes, NeverStop, OsFolder, Stop};
use std::alloc::Global;
use std::fmt::Write as _;
use std::test::Fail;

// What some reads answer, each into an empty buffer.
fn reads<F: Folder>(
    alloc: Global,
    folder: &mut F,
    limit: u32,
    names: &[&str],
) -> Result<String, Fail> {
    let mut trace = String::new(alloc);
    for name in names {
        let mut bytes = Vec::new(alloc);
        match folder.read(name, limit as usize, &mut bytes) {
            Ok(Found::File) => write!(trace, "{} ", bytes.len())?,
            Ok(Found::Missing) => trace.push_str("- ")?,
            Err(FolderEnd::Failed) => trace.push_str("! ")?,
            Err(FolderEnd::NoMemory) => trace.push_str("? ")?,
        }
    }
    Ok(trace)
}

fn named(alloc: Global, name: &str, bytes: &[u8]) -> Result<NamedBytes, Fail> {
    Ok(NamedBytes {
        name: String::from_str(alloc, name)?,
        bytes: Vec::from_slice(alloc, bytes)?,
    })
}

#[test]
fn a_folder_in_memory_tells_its_files(rt: HostRuntime) -> Result<(), Fail> {
    let alloc = rt.alloc();
    let mut files = Vec::new(alloc);
    files.push(named(alloc, "a.sc", b"abcde")?)?;
    files.push(named(alloc, "b.sc", b"")?)?;
    let fail_at = Vec::from_slice(alloc, &[3])?;
    let mut folder = MemFolder::new(files, fail_at);
    let answers = reads(alloc, &mut folder, 3, &["a.sc", "c.sc", "a.sc", "b.sc"])?;
    assert_eq!(rt; answers.as_str(), "4 - ! 0 ");
    Ok(())
}

// The null device is empty, the zero device never ends, and the root is no file.
#[test]
fn the_system_reads_up_to_the_first_byte_past_the_limit(rt: HostRuntime) -> Result<(), Fail> {
    let mut folder = OsFolder::new(&rt);
    let names = [
        "/dev/null",
        "/dev/zero",
        "/",
        "/dev/null/a.sc",
        "/there is no such file",
    ];
    let answers = reads(rt.alloc(), &mut folder, 9999, &names)?;
    assert_eq!(rt; answers.as_str(), "0 10000 ! ! - ");
    Ok(())
}

#[test]
fn nothing_stops_where_nobody_asks(rt: HostRuntime) -> Result<(), Fail> {
    assert_eq!(rt; NeverStop.poll(), 0);
    Ok(())
}
