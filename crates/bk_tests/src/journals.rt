use bk_name::Name;
use jr_form::{Item, are_writable, read_journal, write_journal};
use std::alloc::Global;
use std::test::Fail;
use xt_table::Seq;

/// The most bytes that a file of a save may have.
const MAX_FILE: usize = 4_194_304;

fn item(alloc: Global, name: &[u8], bytes: Option<&[u8]>) -> Result<Item, Fail> {
    let bytes = match bytes {
        Some(bytes) => Some(Seq::from_vec(Vec::from_slice(alloc, bytes)?)),
        None => None,
    };
    let name = Name::read(alloc, name)?;
    Ok(Item { name, bytes })
}

// The journal that writes c.xml: the example of the format's description.
const ONE_FILE: &[u8] = b"BKBURST1\x00\x00\x00\x01\x01\x00\x05c.xml\x00\x00\x00\x0a<c>new</c>";

#[test]
fn a_journal_is_these_bytes(rt: HostRuntime) -> Result<(), Fail> {
    let alloc = rt.alloc();
    let mut items = Vec::new(alloc);
    assert!(rt; !are_writable(&items));
    items.push(item(alloc, b"c.xml", Some(b"<c>new</c>"))?)?;
    assert!(rt; are_writable(&items));
    let bytes = write_journal(alloc, &items)?;
    assert_eq!(rt; bytes.as_slice(), ONE_FILE);
    items.push(item(alloc, b"d/e.xml", None)?)?;
    assert!(rt; are_writable(&items));
    let bytes = write_journal(alloc, &items)?;
    assert_eq!(rt; bytes.len(), ONE_FILE.len() + 10);
    assert!(rt; bytes.ends_with(b"<c>new</c>\x00\x00\x07d/e.xml"));
    items.push(item(alloc, b"d.xml", None)?)?;
    assert!(rt; !are_writable(&items));
    Ok(())
}

// Cut at each length it is none. With a byte changed it is none, or the one spelling of other items.
#[test]
fn a_journal_cut_or_changed_is_never_the_same(rt: HostRuntime) -> Result<(), Fail> {
    let alloc = rt.alloc();
    for (at, _) in ONE_FILE.iter().enumerate() {
        let cut = ONE_FILE.get(..at).unwrap_or(&[]);
        assert!(rt; read_journal(alloc, cut)?.is_none(), "cut at {at}");
        for flip in [1, 0x20, 0x80] {
            let mut bytes = Vec::from_slice(alloc, ONE_FILE)?;
            if let Some(byte) = bytes.get_mut(at) {
                *byte ^= flip;
            }
            if let Some(items) = read_journal(alloc, &bytes)? {
                assert!(rt; are_writable(&items));
                assert_eq!(rt; write_journal(alloc, &items)?.as_slice(), bytes.as_slice());
                assert!(rt; at >= 15, "read with byte {at} changed");
            }
        }
    }
    Ok(())
}

// So many removals, of the names 0000, 0001 and so on.
fn removals(alloc: Global, count: u32) -> Result<Vec<u8>, Fail> {
    let mut bytes = Vec::from_slice(alloc, b"BKBURST1")?;
    bytes.extend_from_slice(&count.to_be_bytes())?;
    for number in 0..count {
        let name = format!(in alloc; "{number:04}")?;
        bytes.extend_from_slice(b"\x00\x00\x04")?;
        bytes.extend_from_slice(name.as_bytes())?;
    }
    Ok(bytes)
}

// Files of 4,194,304 bytes each, under these names of one letter.
fn great_files(alloc: Global, names: &[u8]) -> Result<Vec<u8>, Fail> {
    let zeros = vec![in alloc; 0; MAX_FILE]?;
    let mut bytes = Vec::from_slice(alloc, b"BKBURST1\x00\x00\x00")?;
    bytes.push(names.len().to_be_bytes()[7])?;
    for name in names {
        bytes.extend_from_slice(b"\x01\x00\x01")?;
        bytes.push(*name)?;
        bytes.extend_from_slice(b"\x00\x40\x00\x00")?;
        bytes.extend_from_slice(&zeros)?;
    }
    Ok(bytes)
}

#[test]
fn what_the_format_refuses_is_none(rt: HostRuntime) -> Result<(), Fail> {
    let alloc = rt.alloc();
    for (why, bytes) in [
        ("no item", b"BKBURST1\x00\x00\x00\x00" as &[u8]),
        (
            "names out of order",
            b"BKBURST1\x00\x00\x00\x02\x00\x00\x01b\x00\x00\x01a",
        ),
        (
            "a name twice",
            b"BKBURST1\x00\x00\x00\x02\x00\x00\x01a\x00\x00\x01a",
        ),
        ("an unknown kind", b"BKBURST1\x00\x00\x00\x01\x02\x00\x01a"),
        (
            "no book file's name",
            b"BKBURST1\x00\x00\x00\x01\x00\x00\x02..",
        ),
        (
            "a file too long",
            b"BKBURST1\x00\x00\x00\x01\x01\x00\x01a\x00\x40\x00\x01",
        ),
        (
            "a byte behind the last item",
            b"BKBURST1\x00\x00\x00\x01\x00\x00\x01a\x00",
        ),
    ] {
        assert!(rt; read_journal(alloc, bytes)?.is_none(), "{why}");
    }
    for (count, is_read) in [(1, true), (5120, true), (5121, false)] {
        let found = read_journal(alloc, &removals(alloc, count)?)?;
        assert_eq!(rt; found.is_some(), is_read, "{count} removals");
    }
    // A journal of 17 is longer than the cap.
    for (names, is_read) in [
        (b"abcdefghijklmnop" as &[u8], true),
        (b"abcdefghijklmnopq" as &[u8], false),
    ] {
        let found = read_journal(alloc, &great_files(alloc, names)?)?;
        assert_eq!(rt; found.is_some(), is_read, "{} great files", names.len());
    }
    Ok(())
}
