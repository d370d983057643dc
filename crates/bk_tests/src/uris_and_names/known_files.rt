use bk_name::{Bytes, Entry, Files, Look, Name};
use std::alloc::{AllocError, Global};
use std::process::Abort;
use std::test::Fail;

fn entry(alloc: Global, bytes: &[u8]) -> Result<Entry, AllocError> {
    Ok(Entry::Bytes(Bytes::from_vec(Vec::from_slice(alloc, bytes)?)))
}

// The bytes of a file that is there.
fn bytes_of(look: Look<'_>) -> Option<&[u8]> {
    match look {
        Look::Known(bytes) => Some(bytes),
        Look::Absent | Look::Need => None,
    }
}

#[test]
fn files_that_are_put_and_swapped(rt: HostRuntime) -> Result<(), Fail> {
    let alloc = rt.alloc();
    let a = Name::read(alloc, b"a")?;
    let b = Name::read(alloc, b"b")?;
    let mut files = Files::new(alloc);
    assert!(rt; matches!(files.look(&a), Look::Need));
    let name = a.share()?;
    let one = entry(alloc, b"one")?;
    files.put(name, one)?;
    let name = b.share()?;
    files.put(name, Entry::Absent)?;
    assert_eq!(rt; bytes_of(files.look(&a)), Some(b"one".as_slice()));
    assert!(rt; matches!(files.look(&b), Look::Absent));
    let name = a.share()?;
    let two = entry(alloc, b"two")?;
    files.put(name, two)?;
    assert_eq!(rt; bytes_of(files.look(&a)), Some(b"two".as_slice()));
    assert!(rt; matches!(files.look(&b), Look::Absent));
    if let Look::Need = files.look(&a) {
        return Err("the file was put".into());
    }
    match files.swap(&a, Entry::Absent) {
        Entry::Bytes(old) => {
            let old = old.into_vec();
            assert_eq!(rt; old.as_slice(), b"two".as_slice());
        }
        Entry::Absent => return Err("the file was there".into()),
    }
    assert!(rt; matches!(files.look(&a), Look::Absent));
    Ok(())
}
