//! The greatest sizes that open, and one more of each.
use super::{HEAD, Want, check, over, repeated};
use std::alloc::Global;
use std::process::Abort;
use std::test::Fail;

/// A document that opens with the tree of these parts, and one that doesn't, with the line that is told of it.
fn check_limit<'a>(
    rt: &impl Abort,
    alloc: Global,
    greatest: &'a str,
    tree: &'a [&'a str],
    greater: &'a str,
    line: &'a str,
) -> Result<(), Fail> {
    let case = over(greatest, "");
    let opens = Want {
        status: 0,
        told: tree,
        calls: 4,
        root: case.root,
    };
    check(rt, alloc, &case, &opens, "the greatest")?;
    let case = over(greater, "");
    let closed = Want {
        status: 3,
        told: &[line],
        calls: 4,
        root: case.root,
    };
    check(rt, alloc, &case, &closed, "a greater one")
}

/// Elements within each other, down to this level, counted from 1.
fn nested(alloc: Global, levels: usize) -> Result<String, Fail> {
    let mut text = repeated(alloc, "", "<a>", levels, "")?;
    text.push_str(repeated(alloc, "", "</a>", levels, "")?.as_str())?;
    Ok(text)
}

fn nested_tree(alloc: Global, levels: usize) -> Result<String, Fail> {
    let mut text = String::from_str(alloc, HEAD)?;
    for level in 1..levels {
        let line = repeated(alloc, "", "  ", level, "element a in book.xml\n")?;
        text.push_str(line.as_str())?;
    }
    Ok(text)
}

#[test]
fn no_two_of_many_attributes_have_one_name(rt: HostRuntime) -> Result<(), Fail> {
    let alloc = rt.alloc();
    let head = "element x in book.xml\n  base file:///book/book.xml\n";
    let mut document = String::from_str(alloc, "<x")?;
    let mut tree = String::from_str(alloc, head)?;
    for name in "abcdefghijklmnopqrstuvwxyz".chars() {
        document.push_str(format!(in alloc; " {name}=''")?.as_str())?;
        tree.push_str(format!(in alloc; "  attribute {name}=\"\"\n")?.as_str())?;
    }
    let one = repeated(alloc, document.as_str(), "/>", 1, "")?;
    let twice = repeated(alloc, document.as_str(), " k=''/>", 1, "")?;
    check_limit(
        &rt,
        alloc,
        one.as_str(),
        &[tree.as_str()],
        twice.as_str(),
        "fault NotWellFormed book.xml\n",
    )
}

#[test]
fn level_128_opens_and_129_does_not(rt: HostRuntime) -> Result<(), Fail> {
    let alloc = rt.alloc();
    let (greatest, greater) = (nested(alloc, 128)?, nested(alloc, 129)?);
    let tree = nested_tree(alloc, 128)?;
    check_limit(
        &rt,
        alloc,
        greatest.as_str(),
        &[tree.as_str()],
        greater.as_str(),
        "fault TooDeep book.xml\n",
    )
}

#[test]
fn a_file_of_4194304_bytes_opens_and_a_longer_one_does_not(rt: HostRuntime) -> Result<(), Fail> {
    let alloc = rt.alloc();
    let text = repeated(alloc, "", "x", 4_194_297, "")?;
    let greatest = repeated(alloc, "<a>", text.as_str(), 1, "</a>")?;
    let greater = repeated(alloc, "<a>x", text.as_str(), 1, "</a>")?;
    let tree = [HEAD, "  text \"", text.as_str(), "\" in book.xml\n"];
    check_limit(
        &rt,
        alloc,
        greatest.as_str(),
        &tree,
        greater.as_str(),
        "fault TooLarge book.xml\n",
    )
}

#[test]
fn a_million_nodes_open_and_one_more_do_not(rt: HostRuntime) -> Result<(), Fail> {
    let alloc = rt.alloc();
    let lines = repeated(alloc, "", "  element b in book.xml\n", 999_999, "")?;
    let greatest = repeated(alloc, "<a>", "<b/>", 999_999, "</a>")?;
    let greater = repeated(alloc, "<a>", "<b/>", 1_000_000, "</a>")?;
    check_limit(
        &rt,
        alloc,
        greatest.as_str(),
        &[HEAD, lines.as_str()],
        greater.as_str(),
        "fault TooLarge book.xml\n",
    )
}

/// A run of six commands over a root: what is told, in parts, and the root afterwards.
fn check_edits<'a>(
    rt: &impl Abort,
    alloc: Global,
    root: &'a str,
    script: &'a str,
    told: &'a [&'a str],
    after: &'a str,
) -> Result<(), Fail> {
    let want = Want {
        status: 1,
        told,
        calls: 18,
        root: Some(after.as_bytes()),
    };
    check(rt, alloc, &over(root, script), &want, "the greatest")
}

// `<a>x<b c='`, 4,194,281 bytes of a value, and `'>z</b></a>` are 4,194,302 bytes: two more are the most. An escape counts
// as it is written, and a range that is none, or a character that no document may hold, is refused for that first.
#[test]
fn an_edit_leaves_at_most_4194304_bytes(rt: HostRuntime) -> Result<(), Fail> {
    let alloc = rt.alloc();
    let value = repeated(alloc, "", "y", 4_194_281, "")?;
    let root = repeated(alloc, "<a>x<b c='", value.as_str(), 1, "'>z</b></a>")?;
    let edited = repeated(alloc, "<a>xyz<b c='", value.as_str(), 1, "'>z</b></a>")?;
    let script =
        "text /1/1 1 1 \"xyz\"\ntext /1/1 1 1 \"&\"\ntext /1/1 1 0 \"xyz\"\ntext /1/1 0 1 \"\\u{0}xyz\"\ntext /1/1 1 1 \"yz\"\nburst\n";
    let replies =
        "refused TooLarge\nrefused TooLarge\nrefused BadRange\nrefused BadText\nok\nburst 1\n";
    let told = [
        replies,
        HEAD,
        "  text \"xyz\" in book.xml\n  element b in book.xml\n    attribute c=\"",
        value.as_str(),
        "\"\n    text \"z\" in book.xml\n",
    ];
    check_edits(&rt, alloc, root.as_str(), script, &told, edited.as_str())
}
