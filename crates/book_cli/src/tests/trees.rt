use super::{Want, check, over};
use std::test::Fail;

/// Documents, and their printed trees.
const DOCUMENTS: &[(&str, &str)] = &[
    (
        "<a/>",
        "element a in book.xml\n  base file:///book/book.xml\n",
    ),
    (
        "<a></a>",
        "element a in book.xml\n  base file:///book/book.xml\n",
    ),
    (
        "<a>hi</a>",
        "element a in book.xml\n  base file:///book/book.xml\n  text \"hi\" in book.xml\n",
    ),
    (
        "<a n='x\"y'><b/></a>",
        "element a in book.xml\n  base file:///book/book.xml\n  attribute n=\"x\\\"y\"\n  element b in book.xml\n",
    ),
    (
        " <a>x&amp;&#x3c;y&apos;&gt;</a >\n",
        "element a in book.xml\n  base file:///book/book.xml\n  text \"x&<y'>\" in book.xml\n",
    ),
    (
        "<a b='&lt;&#65;&#x42;&quot;&#10;' c = \"1\t2\n3\"/>",
        "element a in book.xml\n  base file:///book/book.xml\n  attribute b=\"<AB\\\"\\n\"\n  attribute c=\"1 2 3\"\n",
    ),
    (
        "<a>1\n2\t\"\\&#13;</a>",
        "element a in book.xml\n  base file:///book/book.xml\n  text \"1\\n2\\t\\\"\\\\\\r\" in book.xml\n",
    ),
    (
        "<a>x<é>ü</é><b/>y</a>",
        "element a in book.xml\n  base file:///book/book.xml\n  text \"x\" in book.xml\n  element é in book.xml\n    text \"ü\" in book.xml\n  element b in book.xml\n  text \"y\" in book.xml\n",
    ),
    (
        "\u{FEFF}<?xml version=\"1.0\" encoding=\"utf-8\"?>\r\n<!--c--><p:a xmlns:p=\"u:1\" xml:lang=\"de\"><?go on?>x\r\ny</p:a>",
        "comment \"c\" in book.xml\nelement {u:1}a in book.xml\n  base file:///book/book.xml\n  attribute xml:lang=\"de\"\n  pi go \"on\" in book.xml\n  text \"x\\ny\" in book.xml\n",
    ),
    (
        "<a>a<![CDATA[<&amp;\r\n]]>b</a>",
        "element a in book.xml\n  base file:///book/book.xml\n  text \"a<&amp;\\nb\" in book.xml\n",
    ),
    (
        "<a><![CDATA[]]><b/><![CDATA[]]><![CDATA[]]><c/><![CDATA[]]>x</a>",
        "element a in book.xml\n  base file:///book/book.xml\n  element b in book.xml\n  element c in book.xml\n  text \"x\" in book.xml\n",
    ),
    (
        "<a>\r\n<?p?>\r<!--\r\n-->\n</a><?q  r s ?>",
        "element a in book.xml\n  base file:///book/book.xml\n  text \"\\n\" in book.xml\n  pi p \"\" in book.xml\n  text \"\\n\" in book.xml\n  comment \"\\n\" in book.xml\n  text \"\\n\" in book.xml\npi q \"r s \" in book.xml\n",
    ),
    (
        "<a xmlns='u:1' n='0'><b n='1' xmlns=''/></a>",
        "element {u:1}a in book.xml\n  base file:///book/book.xml\n  attribute n=\"0\"\n  element b in book.xml\n    attribute n=\"1\"\n",
    ),
    (
        "<p:a xmlns:p='u:1' xmlns:q='u:2' p:n='1' q:n='2' n='3'><p:b xmlns:p='u:3'/><p:c/></p:a>",
        "element {u:1}a in book.xml\n  base file:///book/book.xml\n  attribute {u:1}n=\"1\"\n  attribute {u:2}n=\"2\"\n  attribute n=\"3\"\n  element {u:3}b in book.xml\n  element {u:1}c in book.xml\n",
    ),
    (
        "<a xmlns:xml='http://www.w3.org/XML/1998/namespace' xml:space='preserve' xml:id='  x   y '/>",
        "element a in book.xml\n  base file:///book/book.xml\n  attribute xml:space=\"preserve\"\n  attribute xml:id=\"x y\"\n",
    ),
    (
        "<a xml:base='x/'><b/><c xml:base='y.xml#z'><d xml:base=''/></c></a>",
        "element a in book.xml\n  base file:///book/x/\n  attribute xml:base=\"x/\"\n  element b in book.xml\n  element c in book.xml\n    base file:///book/x/y.xml\n    attribute xml:base=\"y.xml#z\"\n    element d in book.xml\n      attribute xml:base=\"\"\n",
    ),
    (
        "<a n=\"1&#10;2\r\n3\r4\"/>",
        "element a in book.xml\n  base file:///book/book.xml\n  attribute n=\"1\\n2 3 4\"\n",
    ),
];

#[test]
fn the_tree_is_told(rt: HostRuntime) -> Result<(), Fail> {
    for (document, tree) in DOCUMENTS {
        let case = over(document, "");
        let want = Want {
            status: 0,
            told: &[tree],
            calls: 4,
            root: case.root,
        };
        check(&rt, rt.alloc(), &case, &want, document)?;
    }
    Ok(())
}
