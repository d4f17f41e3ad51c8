//! Files in memory.
use outer_io::{Files, MapFiles, ReadRefusal};
use std::alloc::{AllocError, Global};
use std::collections::BTreeMap;
use std::process::Abort;
use std::test::Fail;

/// The file a, where the third call fails.
fn one_file(alloc: Global) -> Result<MapFiles, AllocError> {
    let mut all: BTreeMap<String, Vec<u8>> = BTreeMap::new(alloc);
    all.insert(
        String::from_str(alloc, "a")?,
        Vec::from_slice(alloc, b"abc")?,
    )?;
    Ok(MapFiles::new(all, Vec::from_slice(alloc, &[2])?))
}

/// What reads give, one after another, and how many bytes a file may have: the third one is on the list, and there is
/// no file b.
const READS: [(&str, u64, Result<&[u8], ReadRefusal>); 5] = [
    ("a", 3, Ok(b"abc")),
    ("a", 2, Err(ReadRefusal::TooLong)),
    ("a", 3, Err(ReadRefusal::Failed)),
    ("b", 3, Err(ReadRefusal::Failed)),
    ("a", 3, Ok(b"abc")),
];

/// That a read gave these bytes, or was refused so.
fn expect_read(
    rt: &impl Abort,
    found: Result<Vec<u8>, ReadRefusal>,
    given: Result<&[u8], ReadRefusal>,
) {
    match (found, given) {
        (Ok(found), Ok(bytes)) => assert!(rt; found.as_slice() == bytes),
        (Err(found), Err(refusal)) => assert!(rt; found == refusal),
        _ => assert!(rt; false, "another answer"),
    }
}

#[test]
fn files_in_memory(rt: HostRuntime) -> Result<(), Fail> {
    let mut files = one_file(rt.alloc())?;
    for (name, limit, given) in &READS {
        expect_read(&rt, files.read(rt.alloc(), name, *limit), *given);
    }
    Ok(())
}
