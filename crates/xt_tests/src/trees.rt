//! The items of a small file by their paths, and bytes in place of others.
ghost use Rattle.std.specs.Prelude.{◌≡◌, ◌<◌, ◌^◌, length};

use std::alloc::Global;
use std::marker::Brand;
use std::sync::ledger::{Blank, Ledger};
use std::test::Fail;
use xt_lex::{Span, Steps};
use xt_read::read_document;
use xt_tree::{Patch, item_at, span_at, splice};

const TEXT: &str = "<a>x<b/>y</a>";

/// What is found at a path: the span of the item, and whether there is one.
#[derive(Drop)]
struct AtPath {
    span: Option<Span>,
    is_item: bool,
}

fn found_over<L: Ledger>(
    alloc: Global,
    file: &[u8],
    path: &[u32],
    blank: Blank,
) -> Result<AtPath, Fail>
    requires fits { length file.now < 2 ^ 32 }
    requires name { blank.name ≡ L.name }
    requires parts { blank.parts ≡ L.parts }
    requires some { L.parts ≡ 1 }
{
    let mut steps = Steps::<L>::new(blank);
    let tape = read_document(alloc, file, &mut steps)?;
    let row = tape.items();
    Ok(AtPath {
        span: span_at(&row, path),
        is_item: item_at(&row, path).is_some(),
    })
}

/// What is found at a path in the document.
fn found(alloc: Global, file: &str, path: &[u32]) -> Result<AtPath, Fail>
    requires fits { length file.now < 2 ^ 32 }
{
    let blank = Blank::new(1);
    found_over::<Brand>(alloc, file.as_bytes(), path, blank)
}

#[test]
fn a_path_leads_to_an_item_and_its_span(rt: HostRuntime) -> Result<(), Fail> {
    for (path, span) in [
        ([0, 0].as_slice(), Some((3, 4))),
        ([0, 1].as_slice(), Some((4, 8))),
        ([0, 2].as_slice(), Some((8, 9))),
        ([0].as_slice(), Some((0, 13))),
        ([].as_slice(), None),
        ([1].as_slice(), None),
        ([0, 3].as_slice(), None),
        ([0, 0, 0].as_slice(), None),
        ([0, 1, 0].as_slice(), None),
    ] {
        let found = found(rt.alloc(), TEXT, path)?;
        assert_eq!(rt; found.span.map(|s| (s.from, s.to)), span, "at {path:?}");
        assert_eq!(rt; found.is_item, span.is_some());
    }
    Ok(())
}

#[test]
fn a_patch_takes_the_place_of_bytes(rt: HostRuntime) -> Result<(), Fail> {
    let alloc = rt.alloc();
    for (from, to, new, after) in [
        (3, 4, "new", "<a>new<b/>y</a>"),
        (8, 9, "", "<a>x<b/></a>"),
        (0, 0, "!", "!<a>x<b/>y</a>"),
        (13, 13, "!", "<a>x<b/>y</a>!"),
        (0, 13, "", ""),
    ] {
        let mut bytes = Vec::from_slice(alloc, TEXT.as_bytes())?;
        let new = Vec::from_slice(alloc, new.as_bytes())?;
        let patch = Patch { from, to, new };
        if patch.from <= patch.to && patch.to as usize <= bytes.len() {
            splice(&mut bytes, &patch)?;
        }
        assert_eq!(rt; bytes.as_slice(), after.as_bytes());
    }
    Ok(())
}
